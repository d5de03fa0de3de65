// The examination's first half, decided both ways over memory of any content: the bitmaps' trees, the segments' counts, and the stacks of free and of
// part segments.
// It needs no scratch: the entries of a stack are told apart by a table of one word for each segment.
#![tactic(auto)]

ghost use Rattle.std.specs.Prelude.{◌≡◌, ℕ, ◌≤◌, ◌<◌, length, get_or};
ghost use Rattle.basics.specs.Decides.{Decides};
ghost use Rattle.basics.specs.Pick.{one_if};
ghost use Rattle.words.specs.Bits.{ones_among};
ghost use Rattle.words.specs.Levels.{tree_words};
ghost use Rattle.words.specs.Tree.{Tree};
ghost use Rattle.classes.specs.Class.{IsClass};
ghost use Rattle.layout.specs.Geometry.{Sized, bitmap_words, blocks_in, max_segments, stack_count};
ghost use Rattle.layout.specs.Mem.{mem_of};
ghost use Rattle.model.specs.Segments.{above, bitmap, count, entry};
ghost use Rattle.model.specs.Consistent.{TreeOk, CountsOk, Summed};
ghost use Rattle.examine_summed.specs.Counted.{CountedAs};
ghost use Rattle.examine_summed.specs.Stacked.{on_stack, OrderedStack, Enters, EntersAll};

use layout::Geometry;
use model::Segment;

const FIRST_CLASS: usize = classes::FIRST_CLASS as usize;

// Whether the bitmap of segment s is a tree of n bits with so many levels above level 0.
fn tree_at(g: Geometry, mem: &[u32], s: usize, n: u32, above: u32) -> bool
    requires sized { (Sized g (length mem.now)) × (s < g.segments) }
    requires n_bound { tree_words above n ≤ bitmap_words g }
    ensures { Decides result (Tree above n (bitmap g (mem_of g mem.now) s)) }
{
    let a = layout::bitmap_from(g, s);
    let b = layout::bitmap_from(g, s + 1);
    bitmap_check::is_tree(&mem[a..b], n, above)
}

// Whether the bitmap of segment s is the tree of a class, any number: below the classes the blocks are too many for the words, and past them one
// word at most holds their bits.
fn tree_of(g: Geometry, mem: &[u32], s: usize, class: u32) -> bool
    requires { (Sized g (length mem.now)) × (s < g.segments) }
    ensures { Decides result (Tree (above g class) (blocks_in g class) (bitmap g (mem_of g mem.now) s)) }
{
    if class < classes::FIRST_CLASS {
        return false;
    }
    if class < classes::FIRST_CLASS + classes::CLASS_COUNT {
        let shape = layout::shape_in(g, class);
        return tree_at(g, mem, s, shape.blocks, shape.levels - 1);
    }
    tree_at(g, mem, s, layout::blocks_in(g, class), 0)
}

// Whether the bitmap of segment s is as its record asks; nothing is asked of a free one's.
fn segment_tree(g: Geometry, mem: &[u32], s: usize) -> bool
    requires { (Sized g (length mem.now)) × (s < g.segments) }
    ensures { Decides result (TreeOk g (mem_of g mem.now) s) }
{
    segments::tag(g, mem, s) == Segment::TAG_FREE || tree_of(g, mem, s, segments::class(g, mem, s))
}

// Whether every segment's bitmap is as its record asks.
fn trees(g: Geometry, mem: &[u32]) -> bool
    requires { Sized g (length mem.now) }
    ensures { Decides result ((s : ℕ) → s < g.segments → TreeOk g (mem_of g mem.now) s) }
{
    (0..g.segments).all(|s| segment_tree(g, mem, s))
}

// Whether the two counts of segment s, of a class, are the 1 bits among its blocks and the 0 bits before its place: what is in use without a place, and
// what the place adds to that.
fn counts_of(g: Geometry, mem: &[u32], s: usize, class: u32) -> bool
    requires sized { (Sized g (length mem.now)) × (s < g.segments) }
    requires class { IsClass class }
    ensures { Decides result (CountedAs g (mem_of g mem.now) s class) }
{
    let kept = segments::kept(g, mem, s);
    if kept != bitmaps::in_use(g, mem, s, class, 0) {
        return false;
    }
    let used = bitmaps::in_use(g, mem, s, class, segments::place(g, mem, s));
    u64::from(segments::handed(g, mem, s)) + u64::from(kept) == u64::from(used)
}

// Whether the two counts of segment s are as its record asks: 0 of a free one; nothing is asked where the class is none.
fn segment_counts(g: Geometry, mem: &[u32], s: usize) -> bool
    requires { (Sized g (length mem.now)) × (s < g.segments) }
    ensures { Decides result (CountsOk g (mem_of g mem.now) s) }
{
    let tag = segments::tag(g, mem, s);
    if tag == Segment::TAG_FREE {
        return segments::kept(g, mem, s) == 0 && segments::handed(g, mem, s) == 0;
    }
    let class = segments::class(g, mem, s);
    !classes::is_class(class) || counts_of(g, mem, s, class)
}

// Whether every segment's counts are as its record asks.
fn counts(g: Geometry, mem: &[u32]) -> bool
    requires { Sized g (length mem.now) }
    ensures { Decides result ((s : ℕ) → s < g.segments → CountsOk g (mem_of g mem.now) s) }
{
    (0..g.segments).all(|s| segment_counts(g, mem, s))
}

// Whether segment s belongs on stack t.
fn belongs(g: Geometry, mem: &[u32], t: usize, s: usize) -> bool
    requires { (Sized g (length mem.now)) × (s < g.segments) × (t < stack_count) }
    ensures { result ≡ on_stack (mem_of g mem.now) t s }
{
    let tag = segments::tag(g, mem, s);
    if t == 0 {
        return tag == Segment::TAG_FREE;
    }
    tag == Segment::TAG_PART && segments::class(g, mem, s) as usize == FIRST_CLASS + (t - 1)
}

// How many segments belong on stack t.
fn belonging(g: Geometry, mem: &[u32], t: usize) -> usize
    requires { (Sized g (length mem.now)) × (t < stack_count) }
    ensures { result ≡ ones_among (λ s. one_if (on_stack (mem_of g mem.now) t s)) g.segments }
{
    let mut k = 0;
    for s in 0..g.segments {
        if belongs(g, mem, t, s) {
            k += 1;
        }
    }
    k
}

// The count of stack t.
fn count(g: Geometry, mem: &[u32], t: usize) -> usize
    requires { (Sized g (length mem.now)) × (t < stack_count) }
    ensures { result ≡ count g (mem_of g mem.now) t }
{
    let n = g.segments;
    layout::stack(g, mem, t * (1 + n)) as usize
}

// Entry i of stack t.
fn entry(g: Geometry, mem: &[u32], t: usize, i: usize) -> usize
    requires { (Sized g (length mem.now)) × (t < stack_count) × (i < g.segments) }
    ensures { result ≡ entry g (mem_of g mem.now) t i }
{
    let n = g.segments;
    layout::stack(g, mem, t * (1 + n) + 1 + i) as usize
}

// Entry i of stack t entered in the table; false where it is no segment, one that does not belong on the stack, or one that was seen.
fn enter(g: Geometry, mem: &[u32], t: usize, i: usize, seen: &mut [u32]) -> bool
    requires sized { (Sized g (length mem.now)) × (t < stack_count) × (i < g.segments) }
    requires seen_len { length seen.old ≡ max_segments }
    ensures { Enters g (mem_of g mem.now) t i seen.old result seen.new }
{
    let s = entry(g, mem, t, i);
    if g.segments <= s || !belongs(g, mem, t, s) || seen[s] != 0 {
        return false;
    }
    seen[s] = 1;
    true
}

// The n entries of stack t entered in the table, one after the other; false where `enter` says so of one.
fn enter_all(g: Geometry, mem: &[u32], t: usize, n: usize, seen: &mut [u32]) -> bool
    requires sized { (Sized g (length mem.now)) × (t < stack_count) × (n ≡ count g (mem_of g mem.now) t) × (n ≤ g.segments) }
    requires seen_len { (length seen.old ≡ max_segments) × ((s : ℕ) → get_or seen.old s 0 ≡ 0) }
    ensures { EntersAll g (mem_of g mem.now) t result seen.new }
{
    for i in 0..n {
        if !enter(g, mem, t, i, seen) {
            return false;
        }
    }
    true
}

// Whether stack t has exactly the segments that belong on it, each once.
fn stack_ok(g: Geometry, mem: &[u32], t: usize) -> bool
    requires { (Sized g (length mem.now)) × (t < stack_count) }
    ensures { Decides result (OrderedStack g (mem_of g mem.now) t) }
{
    let n = count(g, mem, t);
    let k = belonging(g, mem, t);
    if n != k {
        return false;
    }
    let mut seen = [0u32; layout::MAX_SEGMENTS];
    enter_all(g, mem, t, n, &mut seen)
}

// Whether every stack has exactly the segments that belong on it, each once.
fn stacks(g: Geometry, mem: &[u32]) -> bool
    requires { Sized g (length mem.now) }
    ensures { Decides result ((t : ℕ) → t < stack_count → OrderedStack g (mem_of g mem.now) t) }
{
    (0..layout::STACKS).all(|t| stack_ok(g, mem, t))
}

// Whether the trees, the counts and the stacks are in order.
pub fn summed(g: Geometry, mem: &[u32]) -> bool
    requires { Sized g (length mem.now) }
    ensures { Decides result (Summed g (mem_of g mem.now)) }
{
    trees(g, mem) && counts(g, mem) && stacks(g, mem)
}
