// One line of the sheet, written in place: columns one after the other, each by a writer that says the place after it.
// Kept: the writers take the place and say the next one, and are no methods of a struct that holds the output, since such a struct would hold a
// borrowed slice, whose loan each contract would have to speak of.
#![tactic(auto)]

ghost use Rattle.std.specs.Prelude.{◌≡◌, [], ◌∷◌, ◌++◌, ◌+◌, ◌≤◌, ◌<◌, length, replicate};
ghost use Rattle.decimals.specs.Decimal.{decimal};
ghost use Rattle.decimals.specs.Placed.{placed};
ghost use Rattle.model.specs.Sheet.{space, no_class, aligned, letter_of, bar, bar_width, bar_of, ◌beside◌, free_line, used_line};
ghost use Rattle.sheet_line.specs.Fits.{Fits};
ghost use Rattle.model.specs.Tag as Tag;

use model::Segment;

// The characters of a bar, and of a whole line without its line feed.
const BAR_BYTES: usize = 32;

pub const LINE_BYTES: usize = 51;

// `n` bytes `b` from a place on, and the place after them.
fn fill(out: &mut [u8], at: usize, n: usize, b: u8) -> usize
    requires { at + n ≤ length out.old }
    ensures { (result ≡ at + n) × (out.new ≡ placed out.old at (replicate n b)) }
{
    let end = at + n;
    out[at..end].fill(b);
    end
}

// A number right-aligned in a column, and the place after it.
fn put_aligned(out: &mut [u8], at: usize, width: usize, v: u32) -> usize
    requires { (v < 10000) × (length (decimal v) ≤ width) × (at + width ≤ length out.old) }
    ensures { (result ≡ at + width) × (out.new ≡ placed out.old at (aligned width v)) }
{
    let digits = decimals::digit_count(v);
    let from = fill(out, at, width - digits, b' ');
    decimals::put_number(out, from, v)
}

// The same with the space that stands before the next column.
fn put_column(out: &mut [u8], at: usize, width: usize, v: u32) -> usize
    requires { (v < 10000) × (length (decimal v) ≤ width) × (at + width < length out.old) }
    ensures { (result ≡ at + width + 1) × (out.new ≡ placed out.old at (aligned width v ++ (space ∷ []))) }
{
    let next = put_aligned(out, at, width, v);
    out[next] = b' ';
    next + 1
}

// The letter of a state.
#[tactic(auto, unfolding(model::specs::Sheet::letter_of))]
fn letter(tag: u32) -> u8
    ensures { result ≡ letter_of tag }
{
    match tag {
        Segment::TAG_FREE => b'F',
        Segment::TAG_PART => b'P',
        Segment::TAG_HELD => b'H',
        Segment::TAG_FULL => b'L',
        _ => b'C',
    }
}

// Two bytes from a place on, and the place after them.
fn put_two(out: &mut [u8], at: usize, a: u8, b: u8) -> usize
    requires { at + 2 ≤ length out.old }
    ensures { (result ≡ at + 2) × (out.new ≡ placed out.old at (a ∷ b ∷ [])) }
{
    let end = at + 2;
    out[at..end].copy_from_slice(&[a, b]);
    end
}

// The bar: so many # and the rest dots.
fn put_bar(out: &mut [u8], at: usize, n: usize) -> usize
    requires { (n ≤ bar_width) × (at + bar_width ≤ length out.old) }
    ensures { (result ≡ at + bar_width) × (out.new ≡ placed out.old at (bar n)) }
{
    let next = fill(out, at, n, b'#');
    fill(out, next, BAR_BYTES - n, b'.')
}

// How many # the bar has.
fn hashes(used: u32, blocks: u32) -> u32
    requires { (used ≤ blocks) × (1 ≤ blocks) × (blocks < 10000) }
    ensures { result ≡ bar_of used blocks }
{
    32 * used / blocks
}

// The last three columns: blocks in use, blocks not in use, and the bar.
fn put_figures(out: &mut [u8], at: usize, used: u32, unused: u32, bars: usize) -> usize
    requires { (used < 10000) × (unused < 10000) × (bars ≤ bar_width) × (at + 42 ≤ length out.old) }
    ensures { (result ≡ at + 42) × (out.new ≡ placed out.old at (aligned 4 used beside aligned 4 unused beside bar bars)) }
{
    let next = put_column(out, at, 4, used);
    let last = put_column(out, next, 4, unused);
    put_bar(out, last, bars)
}

// The class and the letter of a free segment, each with the space behind it.
fn put_free_state(out: &mut [u8], at: usize) -> usize
    requires { at + 5 ≤ length out.old }
    ensures { (result ≡ at + 5) × (out.new ≡ placed out.old at (no_class beside (letter_of Tag.free ∷ []) beside [])) }
{
    let next = put_two(out, at, b'-', b'-');
    let last = put_two(out, next, b' ', b'F');
    out[last] = b' ';
    last + 1
}

// Those of any other.
fn put_state(out: &mut [u8], at: usize, tag: u32, class: u32) -> usize
    requires { (class < 100) × (at + 5 ≤ length out.old) }
    ensures { (result ≡ at + 5) × (out.new ≡ placed out.old at (aligned 2 class beside (letter_of tag ∷ []) beside [])) }
{
    let next = put_column(out, at, 2, class);
    put_two(out, next, letter(tag), b' ')
}

// The line of a free segment, and the place after it.
pub fn put_free(out: &mut [u8], at: usize, number: u32) -> usize
    requires { (number < 1000) × (at + 51 ≤ length out.old) }
    ensures { (result ≡ at + 51) × (out.new ≡ placed out.old at (free_line number)) }
{
    let state = put_column(out, at, 3, number);
    let figures = put_free_state(out, state);
    put_figures(out, figures, 0, 0, 0)
}

// The line of any other, and the place after it.
pub fn put_used(
    out: &mut [u8],
    at: usize,
    number: u32,
    tag: u32,
    class: u32,
    used: u32,
    blocks: u32,
) -> usize
    requires { (Fits number class used blocks) × (at + 51 ≤ length out.old) }
    ensures { (result ≡ at + 51) × (out.new ≡ placed out.old at (used_line number tag class used blocks)) }
{
    let state = put_column(out, at, 3, number);
    let figures = put_state(out, state, tag, class);
    let bars = hashes(used, blocks);
    put_figures(out, figures, used, blocks - used, bars as usize)
}
