// A segment's bitmap tree and its marks in the lent slice: a fresh tree, the next free block and whether another remains, the tree whose level 0
// becomes the marks and how many they are, whether there is none, and how many blocks are in use.
#![tactic(auto)]

ghost use Rattle.std.specs.Prelude.{◌≡◌, true, ◌≤◌, ◌<◌, length};
ghost use Rattle.words.specs.Bits.{bit_at, ones_among};
ghost use Rattle.words.specs.Levels.{words_for};
ghost use Rattle.classes.specs.Class.{IsClass};
ghost use Rattle.bitmap_search.specs.Twice.{TwoPromise};
ghost use Rattle.layout.specs.Geometry.{Sized, blocks_in};
ghost use Rattle.layout.specs.Mem.{mem_of};
ghost use Rattle.model.specs.Making.{freshened};
ghost use Rattle.model.specs.Segments.{above, bitmap, marks_in};
ghost use Rattle.bitmaps.specs.Given.{adopted_as, NearIn, Unmarked, used_bits};

use bitmap_search::Two;
use layout::Geometry;

// Segment s gets a tree of free blocks of a class.
pub fn fresh(g: Geometry, mem: &mut [u32], s: usize, class: u32)
    requires sized { (Sized g (length mem.old)) × (s < g.segments) }
    requires class { IsClass class }
    ensures { mem_of g mem.new ≡ freshened g (mem_of g mem.old) s class }
{
    let shape = layout::shape_in(g, class);
    let a = layout::bitmap_from(g, s);
    let b = layout::bitmap_from(g, s + 1);
    bitmap_write::make_fresh(&mut mem[a..b], shape.blocks, shape.levels - 1);
}

// The blocks of a segment of a class. A class is below 32: the remainder tells the compiler so, and the test for it in `blocks_in` folds.
fn blocks_of(g: Geometry, class: u32) -> u32
    requires { IsClass class }
    ensures { result ≡ blocks_in g class }
{
    layout::blocks_in(g, class % 32)
}

// The next free block of segment s at or after a place, and whether another remains after it, by the tree: its shape is read.
fn search_two(g: Geometry, mem: &[u32], s: usize, class: u32, place: u32) -> Two
    requires sized { (Sized g (length mem.now)) × (s < g.segments) }
    requires class { IsClass class }
    ensures { TwoPromise (above g class) (bitmap g (mem_of g mem.now) s) (blocks_in g class) place result }
{
    let shape = layout::shape_in(g, class);
    let a = layout::bitmap_from(g, s);
    let b = layout::bitmap_from(g, s + 1);
    bitmap_search::next_two(&mem[a..b], shape.blocks, shape.levels - 1, place)
}

// The next free block of segment s at or after a place, where the place's own word has it and another after it. No class is asked for: a block's
// number is below the most blocks of a segment whatever the words hold.
pub fn near(g: Geometry, mem: &[u32], s: usize, place: u32) -> Option<u32>
    requires { (Sized g (length mem.now)) × (s < g.segments) }
    ensures { NearIn g (mem_of g mem.now) s place result }
{
    let at = layout::block_number(g, place);
    let a = layout::bitmap_from(g, s);
    let b = layout::bitmap_from(g, s + 1);
    bitmap_search::more_in_word(&mem[a..b], at)
}

// The next free block of segment s at or after a place, and whether another remains after it. The place's own word and the next are asked first: where
// they tell both, no shape is read.
pub fn next_two(g: Geometry, mem: &[u32], s: usize, class: u32, place: u32) -> Two
    requires sized { (Sized g (length mem.now)) × (s < g.segments) }
    requires class { IsClass class }
    ensures { TwoPromise (above g class) (bitmap g (mem_of g mem.now) s) (blocks_in g class) place result }
{
    let blocks = blocks_of(g, class);
    let a = layout::bitmap_from(g, s);
    let b = layout::bitmap_from(g, s + 1);
    match bitmap_search::more_in_next(&mem[a..b], blocks, place) {
        Some(x) => Two::More(x),
        None => search_two(g, mem, s, class, place),
    }
}

// Level 0 of segment s becomes its marks, and the levels above it are rebuilt; how many blocks are marked.
pub fn adopt(g: Geometry, mem: &mut [u32], s: usize, class: u32) -> u32
    requires sized { (Sized g (length mem.old)) × (s < g.segments) }
    requires class { IsClass class }
    ensures mem_after { mem_of g mem.new ≡ adopted_as g (mem_of g mem.old) s class }
    ensures ones { result ≡ ones_among (bit_at (marks_in g (mem_of g mem.old) s class)) (blocks_in g class) }
{
    let shape = layout::shape_in(g, class);
    let step = layout::mark_bit(classes::block_words(class)) as u32;
    let a = layout::bitmap_from(g, s);
    let marks = layout::marks_from(g, s);
    let b = layout::marks_from(g, s + 1);
    bitmap_write::adopt(
        &mut mem[a..b],
        marks - a,
        shape.blocks,
        step,
        shape.levels - 1,
    )
}

// Whether no word of the marks of segment s has a bit. There is an arm for each size, so that each asks a number of words that is a constant.
pub fn unmarked(g: Geometry, mem: &[u32], s: usize) -> bool
    requires { (Sized g (length mem.now)) × (s < g.segments) }
    ensures { result ≡ true → Unmarked g (mem_of g mem.now) s }
{
    let a = layout::marks_from(g, s);
    if g.kib == layout::LARGE_KIB {
        let b = a + layout::LARGE_MARK_WORDS;
        bitmap_write::none_set(&mem[a..b])
    } else {
        let b = a + layout::MARK_WORDS;
        bitmap_write::none_set(&mem[a..b])
    }
}

// How many of the first n bits are 1, where those before a place count as 1.
fn used_among(s: &[u32], n: u32, place: u32) -> u32
    requires { words_for n ≤ length s.now }
    ensures { result ≡ ones_among (used_bits (bit_at s.now) place) n }
{
    if n <= place {
        return n;
    }
    let all = words::ones_among(s, n);
    let before = words::ones_among(s, place);
    place + (all - before)
}

// How many blocks of segment s are in use: those before the place, and from there on those whose bit is 1.
pub fn in_use(g: Geometry, mem: &[u32], s: usize, class: u32, place: u32) -> u32
    requires sized { (Sized g (length mem.now)) × (s < g.segments) }
    requires class { IsClass class }
    ensures { result ≡ ones_among (used_bits (bit_at (bitmap g (mem_of g mem.now) s)) place) (blocks_in g class) }
{
    let blocks = layout::blocks_in(g, class);
    let a = layout::bitmap_from(g, s);
    let b = layout::bitmap_from(g, s + 1);
    used_among(&mem[a..b], blocks, place)
}
