// Bitmap trees written: the upper levels rebuilt over level 0, a fresh tree of free blocks, and a tree whose level 0 becomes
// given mark words. The tree stands at the head of the lent slice; what stands behind it is left as it is.
#![tactic(auto)]

ghost use Rattle.std.specs.Prelude.{◌≡◌, ◌⊎◌, true, ℕ, ◌+◌, ◌-◌, ◌*◌, ◌^◌, ◌≤◌, ◌<◌, length, drop};
ghost use Rattle.words.specs.Bits.{bit_at, ones_among};
ghost use Rattle.words.specs.Levels.{words_for, tree_words};
ghost use Rattle.bitmap_write.specs.Rebuild.{full_bit, word_from, summed, rebuilt};
ghost use Rattle.bitmap_write.specs.Completed.{padded, cleared, copied, completed, fresh, gathered_bit, gathered, pressed, Pressable, Ways, adopted};

use words::{ones_from, words_for};

// Bit k of the level above the first m words, one of which word k is.
fn full_bit(s: &[u32], m: u32, k: u32) -> u32
    requires { (k < m) × (m ≤ length s.now) }
    ensures { result ≡ full_bit s.now m k }
{
    u32::from(s[k as usize] == u32::MAX)
}

// The word from bit `from` on of the level above the first m words, of which it has `count`: all ones, less a bit for each that is not full.
fn counted_word(s: &[u32], m: u32, from: u32, count: u32) -> u32
    requires { (m ≤ length s.now) × (count ≤ 32) × (from + count ≤ m) × ((from + count ≡ m) ⊎ (from + 32 ≤ from + count)) }
    ensures { result ≡ word_from (full_bit s.now m) 32 from }
{
    let mut w = u32::MAX;
    for i in 0..count {
        if full_bit(s, m, from + i) == 0 {
            w -= 1u32 << i;
        }
    }
    w
}

// Word j of the level above the first m words. Where it has all 32 of them the loop's count is a constant, so that it is unrolled.
fn full_word(s: &[u32], m: u32, j: u32) -> u32
    requires { (m ≤ length s.now) × (j < words_for m) }
    ensures { result ≡ word_from (full_bit s.now m) 32 (j * 32) }
{
    let from = j * 32;
    let most = m - from;
    if most < 32 {
        return counted_word(s, m, from, most);
    }
    counted_word(s, m, from, 32)
}

// The level above the first m words, written behind them.
fn sum_up(s: &mut [u32], m: u32)
    requires { m + words_for m ≤ length s.old }
    ensures { s.new ≡ summed s.old m }
{
    let base = m as usize;
    for j in 0..words_for(m) {
        let w = full_word(&s[..], m, j);
        s[base + j as usize] = w;
    }
}

// All levels above n bits, written anew.
pub fn rebuild(s: &mut [u32], n: u32, above: u32)
    requires { tree_words above n ≤ length s.old }
    ensures { s.new ≡ rebuilt above n s.old }
{
    if 0 < above {
        let words = words_for(n);
        sum_up(s, words);
        let i = words as usize;
        rebuild(&mut s[i..], words, above - 1);
    }
}

// The bits past the end of a level of n bits are set.
pub fn pad(s: &mut [u32], n: u32)
    requires { words_for n ≤ length s.old }
    ensures { s.new ≡ padded n s.old }
{
    let bit = n % 32;
    if bit != 0 {
        s[(n / 32) as usize] |= ones_from(bit);
    }
}

// Level 0 of n bits is made a tree: its bits past the end set, and the levels above it written anew.
pub fn complete(s: &mut [u32], n: u32, above: u32)
    requires { tree_words above n ≤ length s.old }
    ensures { s.new ≡ completed above n s.old }
{
    pad(s, n);
    rebuild(s, n, above);
}

// The first m words are cleared.
pub fn clear_words(s: &mut [u32], m: u32)
    requires { m ≤ length s.old }
    ensures { s.new ≡ cleared m s.old }
{
    s[..m as usize].fill(0);
}

// The one word of a level of n free bits, where it has one.
fn free_word(n: u32) -> u32
    requires { n ≤ 32 }
    ensures { result ≡ 2 ^ 32 - 2 ^ n }
{
    let one = 1u64 << n;
    (4294967296 - one) as u32
}

// A level of n free bits: its words cleared, and its bits past the end set.
fn free_level(s: &mut [u32], n: u32)
    requires { words_for n ≤ length s.old }
    ensures { s.new ≡ padded n (cleared (words_for n) s.old) }
{
    clear_words(s, words_for(n));
    pad(s, n);
}

// A level of n free bits, which often has one word: that is written at once.
fn last_level(s: &mut [u32], n: u32)
    requires { words_for n ≤ length s.old }
    ensures { s.new ≡ padded n (cleared (words_for n) s.old) }
{
    match n {
        1..=32 => s[0] = free_word(n),
        _ => free_level(s, n),
    }
}

// A tree of n free blocks: a level of free bits, and those above it.
pub fn make_fresh(s: &mut [u32], n: u32, above: u32)
    requires { tree_words above n ≤ length s.old }
    ensures { s.new ≡ fresh above n s.old }
{
    free_level(s, n);
    if above != 0 {
        let words = words_for(n);
        let i = words as usize;
        if above == 1 {
            last_level(&mut s[i..], words);
        } else {
            make_fresh(&mut s[i..], words, above - 1);
        }
    }
}

// Word j of n bits: every step-th bit from a word on.
fn gathered_word(s: &[u32], from: usize, n: u32, step: u32, j: u32) -> u32
    requires { (j < words_for n) × (from ≤ length s.now) × (n * step ≤ (length s.now - from) * 32) × (n * step ≤ 2 ^ 20) × (1 ≤ step) }
    ensures { result ≡ word_from (gathered_bit (drop from s.now) step n) 32 (j * 32) }
{
    let first = j * 32;
    let most = n - first;
    let count = most.min(32);
    let mut w: u32 = 0;
    for i in 0..count {
        let k = (first + i) * step;
        if words::bit_at(&s[from..], k) == 1 {
            w += 1u32 << i;
        }
    }
    w
}

// The even bits of a word, side by side.
fn half(x: u32) -> u32
    ensures { result ≡ pressed 2 16 x }
{
    let a = x & 1431655765;
    let b = (a | (a >> 1)) & 858993459;
    let c = (b | (b >> 2)) & 252645135;
    let d = (c | (c >> 4)) & 16711935;
    (d | (d >> 8)) & 65535
}

// Every eighth bit of a word, side by side.
fn eighth(x: u32) -> u32
    ensures { result ≡ pressed 8 4 x }
{
    words::bit_of(x, 0)
        + words::bit_of(x, 8) * 2
        + words::bit_of(x, 16) * 4
        + words::bit_of(x, 24) * 8
}

// Every step-th bit of a word, side by side.
fn press(x: u32, step: u32, count: u32) -> u32
    requires { Pressable step count }
    ensures { result ≡ pressed step count x }
{
    match step {
        1 => x,
        2 => half(x),
        4 => half(half(x)),
        _ => eighth(x),
    }
}

// Word j of n bits, every step-th bit from a word on, where it is whole: each word that is read has `count` of its bits.
fn pressed_word(s: &[u32], from: usize, n: u32, step: u32, count: u32, j: u32) -> u32
    requires { (j * 32 + 32 ≤ n) × (from ≤ length s.now) × (n * step ≤ (length s.now - from) * 32) × (n * step ≤ 2 ^ 20) × Pressable step count }
    ensures { result ≡ word_from (gathered_bit (drop from s.now) step n) 32 (j * 32) }
{
    let at = from + (j * step) as usize;
    let mut w: u32 = 0;
    for k in 0..step {
        let bits = press(s[at + k as usize], step, count);
        w += bits << (k * count);
    }
    w
}

// Word j of n bits, every step-th bit from a word on: by whole words, or, where `count` is 0, bit by bit.
fn next_word(s: &[u32], from: usize, n: u32, step: u32, count: u32, j: u32) -> u32
    requires { (j < words_for n) × (from ≤ length s.now) × (n * step ≤ (length s.now - from) * 32) × (n * step ≤ 2 ^ 20) × (1 ≤ step) × Ways n step count }
    ensures { result ≡ word_from (gathered_bit (drop from s.now) step n) 32 (j * 32) }
{
    if count == 0 {
        return gathered_word(s, from, n, step, j);
    }
    pressed_word(s, from, n, step, count, j)
}

// The n bits that stand from a word on, one for each step bits, side by side from the first word on.
fn gather_by(s: &mut [u32], from: usize, n: u32, step: u32, count: u32)
    requires { (words_for n ≤ from) × (from ≤ length s.old) × (n * step ≤ (length s.old - from) * 32) × (n * step ≤ 2 ^ 20) × (1 ≤ step) × Ways n step count }
    ensures { s.new ≡ copied (words_for n) (gathered (drop from s.old) step n) s.old }
{
    for j in 0..words_for(n) {
        let w = next_word(&s[..], from, n, step, count, j);
        s[j as usize] = w;
    }
}

// The n bits that stand from a word on, gathered by whole words where the step and n allow it. The step is a constant in each call, so that
// each loop is compiled for its own.
fn gather(s: &mut [u32], from: usize, n: u32, step: u32)
    requires { (words_for n ≤ from) × (from ≤ length s.old) × (n * step ≤ (length s.old - from) * 32) × (n * step ≤ 2 ^ 20) × (1 ≤ step) }
    ensures { s.new ≡ copied (words_for n) (gathered (drop from s.old) step n) s.old }
{
    if n % 32 != 0 {
        gather_by(s, from, n, step, 0);
        return;
    }
    match step {
        1 => gather_by(s, from, n, 1, 32),
        2 => gather_by(s, from, n, 2, 16),
        4 => gather_by(s, from, n, 4, 8),
        8 => gather_by(s, from, n, 8, 4),
        _ => gather_by(s, from, n, step, 0),
    }
}

// Whether none of the bits is 1. The loop has no branch, so that it goes by more than one word at a time.
pub fn none_set(s: &[u32]) -> bool
    ensures { result ≡ true → (k : ℕ) → bit_at s.now k ≡ 0 }
{
    let mut any: u32 = 0;
    for w in s {
        any |= *w;
    }
    any == 0
}

// A tree whose level 0 is the n mark bits that stand in the same slice behind the tree, from a word of it on, one for each step bits; how many of them are 1.
pub fn adopt(s: &mut [u32], marks_at: usize, n: u32, step: u32, above: u32) -> u32
    requires { (tree_words above n ≤ marks_at) × (marks_at ≤ length s.old) × (n * step ≤ (length s.old - marks_at) * 32) × (n * step ≤ 2 ^ 20) × (1 ≤ step) }
    ensures s_after { s.new ≡ adopted above n (gathered (drop marks_at s.old) step n) s.old }
    ensures ones { result ≡ ones_among (bit_at s.new) n }
{
    gather(s, marks_at, n, step);
    complete(s, n, above);
    words::ones_among(&s[..], n)
}
