// The one lent slice and its regions: control, mutators, heap, segment records, stacks, bitmaps, marks, trace stack.
// Nothing above this crate mentions where a region begins: words are read and written through these functions, whose contracts speak of `Mem`, and the
// place of a part that is lent to a leaf comes from here. Only the programs of cases, which change memory word by word, use the
// numbers of where a region begins.
#![tactic(auto)]

ghost use Rattle.std.specs.Prelude.{◌≡◌, ◌⊎◌, ℕ, suc, ◌+◌, ◌*◌, ◌%◌, ◌≤◌, ◌<◌, length, get_or, set, replicate};
ghost use Rattle.std.proofs.Common.{rules};
ghost use Rattle.classes.specs.Class.{IsClass};
ghost use Rattle.classes.specs.Shape.{shape_for};
ghost use Rattle.layout.specs.Geometry.{len, from, total, segment_bytes, segment_words, blocks_in, most_blocks, mark_words, bitmap_words, max_segments, region_count, segment_of, mark_bit, mutator_count, mutator_words, IsSize, Units, Sized, no_kib, wrong_size};
ghost use Rattle.layout.specs.Mem.{mem_of, region, with_region, control_word, mutator_word, segment_record_word, stack_word, bitmap_word, mark_word, trace_word, heap_word, set_control, set_mutator, set_segment, set_stack, set_mark_word, set_trace, set_heap, set_run, clear_region};
ghost use Rattle.layout.specs.Region as Region;
ghost use Rattle.layout.specs.Numbers.{small, large};

use classes::SegmentShape;

// The size of the heap: its number of segments, and the size of each in KiB, 16 or 32.
#[derive(Clone, Copy, PartialEq, Eq, Debug)]
pub struct Geometry {
    pub segments: usize,
    pub kib: u32,
}

// The number of this layout: a change that moves a word of the lent slice raises it.
pub const LAYOUT_NUMBER: u32 = 4;

pub const MAX_SEGMENTS: usize = 256;

pub const MUTATORS: u32 = 32;

pub const ROOTS: u32 = 16;

// The two sizes of a segment.
pub const SMALL_KIB: u32 = 16;

pub const LARGE_KIB: u32 = 32;

// The bytes and words of a segment of 16 KiB, and the words of what goes with each.
const SEGMENT_BYTES: u32 = 16384;

pub const SEGMENT_WORDS: usize = 4096;

pub const MOST_BLOCKS: usize = 2048;

pub const MARK_WORDS: usize = 64;

pub const BITMAP_WORDS: usize = 67;

// The same of a segment of 32 KiB.
const LARGE_SEGMENT_BYTES: u32 = 32768;

const LARGE_SEGMENT_WORDS: usize = 8192;

const LARGE_MOST_BLOCKS: usize = 4096;

pub const LARGE_MARK_WORDS: usize = 128;

const LARGE_BITMAP_WORDS: usize = 133;

// The shape of no class.
const NO_BLOCKS: SegmentShape = SegmentShape {
    blocks: 0,
    levels: 0,
    words0: 0,
    words1: 0,
    words2: 0,
};

// The words of a smallest block, which share a mark bit.
const SMALLEST_WORDS: usize = 2;

// A segment's record: its tag, its class, its allocation pointer, its mutator and its two counts, and its length.
pub const TAG_AT: usize = 0;

pub const CLASS_AT: usize = 1;

pub const PLACE_AT: usize = 2;

pub const OWNER_AT: usize = 3;

pub const KEPT_AT: usize = 4;

pub const HANDED_AT: usize = 5;

pub const SEGMENT_RECORD_WORDS: usize = 6;

pub const STACKS: usize = 1 + classes::CLASS_COUNT as usize;

// A mutator's entry: its roots, then its state, its acknowledgements and its held segments, how many of its words are in use, and its length.
pub const STATE_AT: usize = ROOTS as usize;

pub const ACKS_AT: usize = STATE_AT + 1;

pub const HELD_FROM: usize = ACKS_AT + 1;

pub const ENTRY_WORDS: usize = HELD_FROM + classes::CLASS_COUNT as usize;

pub const MUTATOR_WORDS: usize = 32;

// Where a region begins: so many words for each segment, by its size, and so many besides.
pub const CONTROL_WORDS: usize = 16;

pub const HEAP_FROM: usize = CONTROL_WORDS + MUTATORS as usize * MUTATOR_WORDS;

pub const FIXED: usize = HEAP_FROM + STACKS;

pub const STACKS_PER: usize = SEGMENT_WORDS + SEGMENT_RECORD_WORDS;

pub const BITMAPS_PER: usize = STACKS_PER + STACKS;

pub const MARKS_PER: usize = BITMAPS_PER + BITMAP_WORDS;

pub const TRACE_PER: usize = MARKS_PER + MARK_WORDS;

pub const TOTAL_PER: usize = TRACE_PER + MOST_BLOCKS;

const LARGE_STACKS_PER: usize = LARGE_SEGMENT_WORDS + SEGMENT_RECORD_WORDS;

const LARGE_BITMAPS_PER: usize = LARGE_STACKS_PER + STACKS;

const LARGE_MARKS_PER: usize = LARGE_BITMAPS_PER + LARGE_BITMAP_WORDS;

const LARGE_TRACE_PER: usize = LARGE_MARKS_PER + LARGE_MARK_WORDS;

const LARGE_TOTAL_PER: usize = LARGE_TRACE_PER + LARGE_MOST_BLOCKS;

// Of what is before the marks and before the trace stack, so many words for each 16 KiB of a segment, and so many for each segment.
const MARKS_UNITS: usize = LARGE_MARKS_PER - MARKS_PER;

const TRACE_UNITS: usize = LARGE_TRACE_PER - TRACE_PER;

const BESIDE: usize = MARKS_PER - MARKS_UNITS;

// The words of a heap of one segment and of two of 16 KiB, for programs that have so many.
pub const WORDS_OF_ONE: usize = TOTAL_PER + FIXED;

pub const WORDS_OF_TWO: usize = 2 * TOTAL_PER + FIXED;

// The numbers of a segment of one of the two sizes: its bytes, its words, its most blocks, and of what is before the stacks and of the whole slice
// so many words for each.
#[derive(Clone, Copy)]
struct Numbers {
    bytes: u32,
    segment_words: usize,
    most_blocks: usize,
    stacks_per: usize,
    total_per: usize,
}

const SMALL: Numbers = Numbers {
    bytes: SEGMENT_BYTES,
    segment_words: SEGMENT_WORDS,
    most_blocks: MOST_BLOCKS,
    stacks_per: STACKS_PER,
    total_per: TOTAL_PER,
};

const LARGE: Numbers = Numbers {
    bytes: LARGE_SEGMENT_BYTES,
    segment_words: LARGE_SEGMENT_WORDS,
    most_blocks: LARGE_MOST_BLOCKS,
    stacks_per: LARGE_STACKS_PER,
    total_per: LARGE_TOTAL_PER,
};

// The numbers of a segment's size. A geometry of neither size has those of the smaller.
fn each_size(g: Geometry) -> Numbers
    ensures { ((segment_bytes g ≡ 16384) × (result ≡ small)) ⊎ ((segment_bytes g ≡ 32768) × (result ≡ large)) }
{
    if g.kib == LARGE_KIB { LARGE } else { SMALL }
}

// The length of the lent slice.
pub fn total_words(g: Geometry) -> usize
    requires { g.segments ≤ max_segments }
    ensures { result ≡ total g }
{
    g.segments * each_size(g).total_per + FIXED
}

// Whether a number of KiB is neither of the two sizes.
pub fn no_kib(kib: u32) -> bool
    ensures { result ≡ no_kib kib }
{
    kib != SMALL_KIB && kib != LARGE_KIB
}

// Whether the count of segments, their size or the length is wrong. The words of a segment come from the test of the size, so it is tested once.
pub fn wrong_size(g: Geometry, x: usize) -> bool
    ensures { result ≡ wrong_size g x }
{
    let n = g.segments;
    if n < 1 || MAX_SEGMENTS < n {
        return true;
    }
    let each = match g.kib {
        SMALL_KIB => TOTAL_PER,
        LARGE_KIB => LARGE_TOTAL_PER,
        _ => return true,
    };
    x != n * each + FIXED
}

// How many times 16 KiB a segment has: once or twice.
fn units(g: Geometry) -> usize
    requires { IsSize g.kib }
    ensures { Units g result }
{
    (g.kib / SMALL_KIB) as usize
}

// The words of the heap.
pub fn heap_words(g: Geometry) -> usize
    requires { (g.segments ≤ max_segments) × (IsSize g.kib) }
    ensures { result ≡ len g Region.heap }
{
    g.segments * units(g) * SEGMENT_WORDS
}

// The entries that the trace stack has room for: one for each block.
pub fn trace_words(g: Geometry) -> usize
    requires { (g.segments ≤ max_segments) × (IsSize g.kib) }
    ensures { result ≡ len g Region.trace }
{
    g.segments * units(g) * MOST_BLOCKS
}

// The blocks of a segment of a class; any number may be asked for.
pub fn blocks_in(g: Geometry, class: u32) -> u32
    ensures { result ≡ blocks_in g class }
{
    if 32 <= class {
        return 0;
    }
    each_size(g).bytes >> class
}

// A number below the most blocks of a segment: a place of a segment in use is one, and whatever else a word holds becomes one.
pub fn block_number(g: Geometry, place: u32) -> u32
    ensures { result ≡ place % most_blocks g }
{
    (place as usize % each_size(g).most_blocks) as u32
}

// The shape of a segment of a class.
pub fn shape_in(g: Geometry, class: u32) -> SegmentShape
    requires { IsClass class }
    ensures { result ≡ shape_for (blocks_in g class) }
{
    if g.kib == LARGE_KIB {
        classes::large_shape(class).unwrap_or(NO_BLOCKS)
    } else {
        classes::segment_shape(class).unwrap_or(NO_BLOCKS)
    }
}

// Where the segment records begin.
fn segments_from(g: Geometry) -> usize
    requires { g.segments ≤ max_segments }
    ensures { result ≡ from g Region.segments }
{
    g.segments * each_size(g).segment_words + HEAP_FROM
}

// Where the stacks begin.
fn stacks_from(g: Geometry) -> usize
    requires { g.segments ≤ max_segments }
    ensures { result ≡ from g Region.stacks }
{
    g.segments * each_size(g).stacks_per + HEAP_FROM
}

// Where the bitmap of segment s begins, and, for one more, ends.
// Kept: both numbers by one branch; taken from `each_size` they are chosen one by one, twice the instructions (13 for 7).
pub fn bitmap_from(g: Geometry, s: usize) -> usize
    requires { (g.segments ≤ max_segments) × (s ≤ max_segments) }
    ensures { result ≡ from g Region.bitmaps + s * bitmap_words g }
{
    if g.kib == LARGE_KIB {
        g.segments * LARGE_BITMAPS_PER + FIXED + s * LARGE_BITMAP_WORDS
    } else {
        g.segments * BITMAPS_PER + FIXED + s * BITMAP_WORDS
    }
}

// Where the marks of segment s begin.
// Kept: both numbers by one branch; taken from `each_size` they are chosen one by one, twice the instructions (13 for 7).
pub fn marks_from(g: Geometry, s: usize) -> usize
    requires { (g.segments ≤ max_segments) × (s ≤ max_segments) }
    ensures { result ≡ from g Region.marks + s * mark_words g }
{
    if g.kib == LARGE_KIB {
        g.segments * LARGE_MARKS_PER + FIXED + s * LARGE_MARK_WORDS
    } else {
        g.segments * MARKS_PER + FIXED + s * MARK_WORDS
    }
}

// Where the marks begin.
fn first_marks(g: Geometry) -> usize
    requires { (g.segments ≤ max_segments) × (IsSize g.kib) }
    ensures { result ≡ from g Region.marks }
{
    g.segments * units(g) * MARKS_UNITS + g.segments * BESIDE + FIXED
}

// Where the trace stack begins.
fn trace_from(g: Geometry) -> usize
    requires { (g.segments ≤ max_segments) × (IsSize g.kib) }
    ensures { result ≡ from g Region.trace }
{
    g.segments * units(g) * TRACE_UNITS + g.segments * BESIDE + FIXED
}

// The segment of a word of the heap, and the word's place in it.
pub fn segment_of(g: Geometry, at: usize) -> usize
    ensures { result ≡ segment_of g at }
{
    at / each_size(g).segment_words
}

pub fn offset_of(g: Geometry, at: usize) -> usize
    ensures { result ≡ at % segment_words g }
{
    at % each_size(g).segment_words
}

// The word of the heap at a place in segment s.
pub fn word_in(g: Geometry, s: usize, offset: usize) -> usize
    requires { (s < max_segments) × (IsSize g.kib) × (offset < segment_words g) }
    ensures { result ≡ s * segment_words g + offset }
{
    s * units(g) * SEGMENT_WORDS + offset
}

// The bit of a word of the heap among the marks.
pub fn mark_bit(at: usize) -> usize
    ensures { result ≡ mark_bit at }
{
    at / SMALLEST_WORDS
}

// A region of the lent slice: which one it is, and where it begins.
trait Part {
    ghost region: { ℕ };

    fn begins(g: Geometry) -> usize
        requires { (g.segments ≤ max_segments) × (IsSize g.kib) }
        ensures { result ≡ from g region };

    ghost is_one: { region < region_count };
}

struct ControlPart;

impl Part for ControlPart {
    ghost region = { Region.control };

    ghost is_one = { Prim.search rules };

    fn begins(_g: Geometry) -> usize {
        0
    }
}

struct MutatorsPart;

impl Part for MutatorsPart {
    ghost region = { Region.mutators };

    ghost is_one = { Prim.search rules };

    fn begins(_g: Geometry) -> usize {
        CONTROL_WORDS
    }
}

struct HeapPart;

impl Part for HeapPart {
    ghost region = { Region.heap };

    ghost is_one = { Prim.search rules };

    fn begins(_g: Geometry) -> usize {
        HEAP_FROM
    }
}

struct SegmentsPart;

impl Part for SegmentsPart {
    ghost region = { Region.segments };

    ghost is_one = { Prim.search rules };

    fn begins(g: Geometry) -> usize {
        segments_from(g)
    }
}

struct StacksPart;

impl Part for StacksPart {
    ghost region = { Region.stacks };

    ghost is_one = { Prim.search rules };

    fn begins(g: Geometry) -> usize {
        stacks_from(g)
    }
}

struct BitmapsPart;

impl Part for BitmapsPart {
    ghost region = { Region.bitmaps };

    ghost is_one = { Prim.search rules };

    fn begins(g: Geometry) -> usize {
        bitmap_from(g, 0)
    }
}

struct MarksPart;

impl Part for MarksPart {
    ghost region = { Region.marks };

    ghost is_one = { Prim.search rules };

    fn begins(g: Geometry) -> usize {
        first_marks(g)
    }
}

struct TracePart;

impl Part for TracePart {
    ghost region = { Region.trace };

    ghost is_one = { Prim.search rules };

    fn begins(g: Geometry) -> usize {
        trace_from(g)
    }
}

// Word i of a region.
fn read<P: Part>(g: Geometry, mem: &[u32], i: usize) -> u32
    requires { (Sized g (length mem.now)) × (i < len g P.region) }
    ensures { result ≡ get_or (region (mem_of g mem.now) P.region) i 0 }
{
    mem[P::begins(g) + i]
}

fn write<P: Part>(g: Geometry, mem: &mut [u32], i: usize, v: u32)
    requires { (Sized g (length mem.old)) × (i < len g P.region) }
    ensures { mem_of g mem.new ≡ with_region (mem_of g mem.old) P.region (set (region (mem_of g mem.old) P.region) i v) }
{
    mem[P::begins(g) + i] = v;
}

// n words of a region cleared, from word i on.
fn clear_run<P: Part>(g: Geometry, mem: &mut [u32], i: usize, n: usize)
    requires { (Sized g (length mem.old)) × (i + n ≤ len g P.region) }
    ensures { mem_of g mem.new ≡ set_run (mem_of g mem.old) P.region i (replicate n 0) }
{
    let a = P::begins(g) + i;
    mem[a..a + n].fill(0);
}

// A region cleared, which ends where the next begins.
fn clear<P: Part, N: Part>(g: Geometry, mem: &mut [u32])
    requires { (Sized g (length mem.old)) × (N.region ≡ suc P.region) }
    ensures { mem_of g mem.new ≡ clear_region g (mem_of g mem.old) P.region }
{
    mem[P::begins(g)..N::begins(g)].fill(0);
}

// Word i of the control.
pub fn control(g: Geometry, mem: &[u32], i: usize) -> u32
    requires { (Sized g (length mem.now)) × (i < len g Region.control) }
    ensures { result ≡ control_word (mem_of g mem.now) i }
{
    read::<ControlPart>(g, mem, i)
}

#[tactic(auto, unfolding(crate::specs::Mem::set_control))]
pub fn set_control(g: Geometry, mem: &mut [u32], i: usize, v: u32)
    requires { (Sized g (length mem.old)) × (i < len g Region.control) }
    ensures { mem_of g mem.new ≡ set_control (mem_of g mem.old) i v }
{
    write::<ControlPart>(g, mem, i, v);
}

// Word i of the mutators' entries.
pub fn mutator(g: Geometry, mem: &[u32], i: usize) -> u32
    requires { (Sized g (length mem.now)) × (i < len g Region.mutators) }
    ensures { result ≡ mutator_word (mem_of g mem.now) i }
{
    read::<MutatorsPart>(g, mem, i)
}

#[tactic(auto, unfolding(crate::specs::Mem::set_mutator))]
pub fn set_mutator(g: Geometry, mem: &mut [u32], i: usize, v: u32)
    requires { (Sized g (length mem.old)) × (i < len g Region.mutators) }
    ensures { mem_of g mem.new ≡ set_mutator (mem_of g mem.old) i v }
{
    write::<MutatorsPart>(g, mem, i, v);
}

// Word i of the heap.
pub fn word(g: Geometry, mem: &[u32], i: usize) -> u32
    requires { (Sized g (length mem.now)) × (i < len g Region.heap) }
    ensures { result ≡ heap_word (mem_of g mem.now) i }
{
    read::<HeapPart>(g, mem, i)
}

#[tactic(auto, unfolding(crate::specs::Mem::set_heap))]
pub fn set_word(g: Geometry, mem: &mut [u32], i: usize, v: u32)
    requires { (Sized g (length mem.old)) × (i < len g Region.heap) }
    ensures { mem_of g mem.new ≡ set_heap (mem_of g mem.old) i v }
{
    write::<HeapPart>(g, mem, i, v);
}

// Word i of the segment records.
pub fn segment(g: Geometry, mem: &[u32], i: usize) -> u32
    requires { (Sized g (length mem.now)) × (i < len g Region.segments) }
    ensures { result ≡ segment_record_word (mem_of g mem.now) i }
{
    read::<SegmentsPart>(g, mem, i)
}

#[tactic(auto, unfolding(crate::specs::Mem::set_segment))]
pub fn set_segment(g: Geometry, mem: &mut [u32], i: usize, v: u32)
    requires { (Sized g (length mem.old)) × (i < len g Region.segments) }
    ensures { mem_of g mem.new ≡ set_segment (mem_of g mem.old) i v }
{
    write::<SegmentsPart>(g, mem, i, v);
}

// Word i of the stacks.
pub fn stack(g: Geometry, mem: &[u32], i: usize) -> u32
    requires { (Sized g (length mem.now)) × (i < len g Region.stacks) }
    ensures { result ≡ stack_word (mem_of g mem.now) i }
{
    read::<StacksPart>(g, mem, i)
}

#[tactic(auto, unfolding(crate::specs::Mem::set_stack))]
pub fn set_stack(g: Geometry, mem: &mut [u32], i: usize, v: u32)
    requires { (Sized g (length mem.old)) × (i < len g Region.stacks) }
    ensures { mem_of g mem.new ≡ set_stack (mem_of g mem.old) i v }
{
    write::<StacksPart>(g, mem, i, v);
}

// Word i of the bitmaps.
pub fn bitmap(g: Geometry, mem: &[u32], i: usize) -> u32
    requires { (Sized g (length mem.now)) × (i < len g Region.bitmaps) }
    ensures { result ≡ bitmap_word (mem_of g mem.now) i }
{
    read::<BitmapsPart>(g, mem, i)
}

// Word i of the marks.
pub fn mark(g: Geometry, mem: &[u32], i: usize) -> u32
    requires { (Sized g (length mem.now)) × (i < len g Region.marks) }
    ensures { result ≡ mark_word (mem_of g mem.now) i }
{
    read::<MarksPart>(g, mem, i)
}

#[tactic(auto, unfolding(crate::specs::Mem::set_mark_word))]
pub fn set_mark(g: Geometry, mem: &mut [u32], i: usize, v: u32)
    requires { (Sized g (length mem.old)) × (i < len g Region.marks) }
    ensures { mem_of g mem.new ≡ set_mark_word (mem_of g mem.old) i v }
{
    write::<MarksPart>(g, mem, i, v);
}

// Word i of the trace stack.
pub fn trace(g: Geometry, mem: &[u32], i: usize) -> u32
    requires { (Sized g (length mem.now)) × (i < len g Region.trace) }
    ensures { result ≡ trace_word (mem_of g mem.now) i }
{
    read::<TracePart>(g, mem, i)
}

#[tactic(auto, unfolding(crate::specs::Mem::set_trace))]
pub fn set_trace(g: Geometry, mem: &mut [u32], i: usize, v: u32)
    requires { (Sized g (length mem.old)) × (i < len g Region.trace) }
    ensures { mem_of g mem.new ≡ set_trace (mem_of g mem.old) i v }
{
    write::<TracePart>(g, mem, i, v);
}

// A region cleared.
pub fn clear_control(g: Geometry, mem: &mut [u32])
    requires { Sized g (length mem.old) }
    ensures { mem_of g mem.new ≡ clear_region g (mem_of g mem.old) Region.control }
{
    clear::<ControlPart, MutatorsPart>(g, mem);
}

pub fn clear_mutators(g: Geometry, mem: &mut [u32])
    requires { Sized g (length mem.old) }
    ensures { mem_of g mem.new ≡ clear_region g (mem_of g mem.old) Region.mutators }
{
    clear::<MutatorsPart, HeapPart>(g, mem);
}

pub fn clear_segments(g: Geometry, mem: &mut [u32])
    requires { Sized g (length mem.old) }
    ensures { mem_of g mem.new ≡ clear_region g (mem_of g mem.old) Region.segments }
{
    clear::<SegmentsPart, StacksPart>(g, mem);
}

pub fn clear_stacks(g: Geometry, mem: &mut [u32])
    requires { Sized g (length mem.old) }
    ensures { mem_of g mem.new ≡ clear_region g (mem_of g mem.old) Region.stacks }
{
    clear::<StacksPart, BitmapsPart>(g, mem);
}

pub fn clear_marks(g: Geometry, mem: &mut [u32])
    requires { Sized g (length mem.old) }
    ensures { mem_of g mem.new ≡ clear_region g (mem_of g mem.old) Region.marks }
{
    clear::<MarksPart, TracePart>(g, mem);
}

// The entry of mutator k cleared.
pub fn clear_entry(g: Geometry, mem: &mut [u32], k: usize)
    requires { (Sized g (length mem.old)) × (k < mutator_count) }
    ensures { mem_of g mem.new ≡ set_run (mem_of g mem.old) Region.mutators (k * mutator_words) (replicate mutator_words 0) }
{
    clear_run::<MutatorsPart>(g, mem, k * MUTATOR_WORDS, MUTATOR_WORDS);
}

// n words of the heap cleared, from word i on.
pub fn clear_heap(g: Geometry, mem: &mut [u32], i: usize, n: usize)
    requires { (Sized g (length mem.old)) × (i + n ≤ len g Region.heap) }
    ensures { mem_of g mem.new ≡ set_run (mem_of g mem.old) Region.heap i (replicate n 0) }
{
    clear_run::<HeapPart>(g, mem, i, n);
}
