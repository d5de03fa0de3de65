// The check of a bitmap tree: whether the words at the head of a slice are a consistent tree of n bits, decided both ways.
#![tactic(auto)]

ghost use Rattle.std.specs.Prelude.{◌+◌, ◌≤◌, ◌<◌, length, drop};
ghost use Rattle.basics.specs.Decides.{Decides};
ghost use Rattle.words.specs.Levels.{words_for, tree_words};
ghost use Rattle.words.specs.Tree.{Level, Sums, Tree};
ghost use Rattle.bitmap_check.specs.Agree.{SummaryAgrees};

use words::{bit_of, clear_from, words_for};

// Whether the bits past the end of a level of n bits are 1.
fn level_ok(s: &[u32], n: u32) -> bool
    requires { words_for n ≤ length s.now }
    ensures { Decides result (Level n s.now) }
{
    let bit = n % 32;
    bit == 0 || clear_from(s[(n / 32) as usize], bit) >= 32
}

// Whether bit j of the level behind the first m words says whether word j is all ones.
fn agree(s: &[u32], m: u32, j: u32) -> bool
    requires { (m + words_for m ≤ length s.now) × (j < m) }
    ensures { Decides result (SummaryAgrees s.now m j) }
{
    let k = m as usize + (j / 32) as usize;
    let w = s[j as usize];
    let bit = bit_of(s[k], j % 32);
    (w == u32::MAX) == (bit == 1)
}

// Whether the level behind the first m words sums them up.
fn sums_ok(s: &[u32], m: u32) -> bool
    requires { m + words_for m ≤ length s.now }
    ensures { Decides result (Sums m s.now (drop m s.now)) }
{
    (0..m).all(|j| agree(s, m, j))
}

// Whether the words hold a consistent tree of n bits with so many levels above level 0.
pub fn is_tree(s: &[u32], n: u32, above: u32) -> bool
    requires { tree_words above n ≤ length s.now }
    ensures { Decides result (Tree above n s.now) }
{
    if !level_ok(s, n) {
        return false;
    }
    if above == 0 {
        return n <= 32;
    }
    let words = words_for(n);
    sums_ok(s, words) && is_tree(&s[words as usize..], words, above - 1)
}
