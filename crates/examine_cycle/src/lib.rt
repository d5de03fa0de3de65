// The examination's parts on the cycle that need a search, over memory of any content: the tricolour invariant, and in sweep the marks of what is
// reached. Bits of live or reached records, each of which passes the test, and cover bits lie beside each other in a lent scratch.
#![tactic(auto)]

ghost use Rattle.std.specs.Prelude.{◌≡◌, ◌⊎◌, ℕ, suc, ◌+◌, ◌*◌, ◌≤◌, ◌<◌, length};
ghost use Rattle.basics.specs.Decides.{Decides};
ghost use Rattle.words.specs.Bits.{bit_at};
ghost use Rattle.layout.specs.Geometry.{Sized, len, most_blocks, blocks_in, mark_bit, mutator_count};
ghost use Rattle.layout.specs.Mem.{mem_of};
ghost use Rattle.model.specs.Records.{header_of, pointer_count};
ghost use Rattle.model.specs.Consistent.{RecordOk};
ghost use Rattle.examine_search.specs.Graph.{words_of, length_of};
ghost use Rattle.examine_cycle.specs.Judged.{Known, OfClass, Fine, FineRun, RootsFine, RecordFine, BlockJudged, SegmentJudged, Judged};
ghost use Rattle.layout.specs.Region as Region;

use examine_search::{Edges, Source};
use layout::Geometry;
use model::Segment;

// What is asked of each record of a set: that its pointers are covered if it is marked, or that it is marked if its segment is in the collect set.
// Kept: `Judged` holds it as a value, and what is asked stands in one match; a closure in its place would be passed through four functions.
#[derive(Clone, Copy)]
pub enum Asked {
    Pointers,
    Marks,
}

// Whether a bit is marked or covered.
fn fine_bit(g: Geometry, mem: &[u32], cover: &[u32], k: usize) -> bool
    requires { (Sized g (length mem.now)) × (len g Region.marks ≤ length cover.now) × (k < g.segments * most_blocks g) }
    ensures { Decides result ((bit_at (mem_of g mem.now).marks k ≡ 1) ⊎ (bit_at cover.now k ≡ 1)) }
{
    if marks::is_set(g, mem, k) {
        return true;
    }
    words::bit_at(cover, k as u32) == 1
}

// Whether a word is nil or names a record that passes the test and is covered.
fn fine(g: Geometry, mem: &[u32], cover: &[u32], w: u32) -> bool
    requires { (Sized g (length mem.now)) × (len g Region.marks ≤ length cover.now) }
    ensures { Decides result ((x : ℕ) → w ≡ suc x → Fine g (mem_of g mem.now) cover.now x) }
{
    if w == 0 {
        return true;
    }
    let Some(k) = examine_record::test(g, mem, (w - 1) as usize) else {
        return false;
    };
    fine_bit(g, mem, cover, k)
}

// Whether every word of a run is nil or names a record that passes the test and is covered.
fn fine_run(
    g: Geometry,
    mem: &[u32],
    cover: &[u32],
    source: Source,
    from: usize,
    count: usize,
) -> bool
    requires { (Sized g (length mem.now)) × (len g Region.marks ≤ length cover.now) × (from + count ≤ length_of source g) }
    ensures { Decides result (FineRun g (mem_of g mem.now) cover.now (words_of source (mem_of g mem.now)) from count) }
{
    for f in 0..count {
        let w = examine_search::word(g, mem, source, from + f);
        if !fine(g, mem, cover, w) {
            return false;
        }
    }
    true
}

// Whether the roots of mutator k are covered, where it is attached and has acknowledged twice.
fn mutator_fine(g: Geometry, mem: &[u32], cover: &[u32], k: u32) -> bool
    requires { (Sized g (length mem.now)) × (len g Region.marks ≤ length cover.now) × (k < mutator_count) }
    ensures { Decides result (RootsFine g (mem_of g mem.now) cover.now k) }
{
    if mutators::state(g, mem, k) == mutators::ABSENT {
        return true;
    }
    if mutators::acks(g, mem, k) < 2 {
        return true;
    }
    let from = k as usize * layout::MUTATOR_WORDS;
    fine_run(g, mem, cover, Source::Roots, from, layout::ROOTS as usize)
}

// Whether the roots of every attached mutator with two acknowledgements are covered.
pub fn mutators_fine(g: Geometry, mem: &[u32], cover: &[u32]) -> bool
    requires { (Sized g (length mem.now)) × (len g Region.marks ≤ length cover.now) }
    ensures { Decides result ((k : ℕ) → k < mutator_count → RootsFine g (mem_of g mem.now) cover.now k) }
{
    (0..layout::MUTATORS).all(|k| mutator_fine(g, mem, cover, k))
}

// Whether the pointers of the record at a word are covered.
fn pointers_fine(g: Geometry, mem: &[u32], cover: &[u32], at: usize) -> bool
    requires { (Sized g (length mem.now)) × (len g Region.marks ≤ length cover.now) × RecordOk g (mem_of g mem.now) at }
    ensures { Decides result (FineRun g (mem_of g mem.now) cover.now (mem_of g mem.now).heap (at + 1) (pointer_count (mem_of g mem.now) at)) }
{
    let count = examine_search::pointers(g, mem, Edges::All, at);
    fine_run(g, mem, cover, Source::Pointers, at + 1, count)
}

// Whether what is asked holds of the record at a word of segment s, whose bit is k.
fn record_fine(
    g: Geometry,
    mem: &[u32],
    asked: Asked,
    cover: &[u32],
    s: usize,
    at: usize,
    k: usize,
) -> bool
    requires { (Sized g (length mem.now)) × (len g Region.marks ≤ length cover.now) × (s < g.segments) × (k < g.segments * most_blocks g) × RecordOk g (mem_of g mem.now) at }
    ensures { Decides result (RecordFine asked g (mem_of g mem.now) cover.now s at k) }
{
    match asked {
        Asked::Pointers => {
            if marks::is_set(g, mem, k) {
                return pointers_fine(g, mem, cover, at);
            }
            true
        }
        Asked::Marks => {
            if segments::tag(g, mem, s) == Segment::TAG_CONDEMNED {
                return marks::is_set(g, mem, k);
            }
            true
        }
    }
}

// Whether what is asked holds of the block at a word of segment s, if its bit is in the set.
fn block_judged(
    g: Geometry,
    mem: &[u32],
    asked: Asked,
    bits: &[u32],
    cover: &[u32],
    s: usize,
    at: usize,
) -> bool
    requires sized { (Sized g (length mem.now)) × (len g Region.marks ≤ length cover.now) × (len g Region.marks ≤ length bits.now) }
    requires s_lt_segments { (s < g.segments) × (at < len g Region.heap) × (bit_at bits.now (mark_bit at) ≡ 1 → RecordOk g (mem_of g mem.now) at) }
    ensures { Decides result (BlockJudged asked g (mem_of g mem.now) bits.now cover.now s at) }
{
    let k = layout::mark_bit(at);
    if words::bit_at(bits, k as u32) != 1 {
        return true;
    }
    record_fine(g, mem, asked, cover, s, at, k)
}

// Whether what is asked holds of every block of segment s, which is of a class; each begins a block's words after the one before.
fn segment_judged(
    g: Geometry,
    mem: &[u32],
    asked: Asked,
    bits: &[u32],
    cover: &[u32],
    s: usize,
    class: u32,
) -> bool
    requires sized { (Sized g (length mem.now)) × (len g Region.marks ≤ length cover.now) × Known g (mem_of g mem.now) bits.now }
    requires s_lt_segments { (s < g.segments) × OfClass (mem_of g mem.now) s class }
    ensures { Decides result ((b : ℕ) → b < blocks_in g class → BlockJudged asked g (mem_of g mem.now) bits.now cover.now s (header_of g s class b)) }
{
    let blocks = layout::blocks_in(g, class) as usize;
    let words = classes::block_words(class);
    let mut at = layout::word_in(g, s, 0);
    for b in 0..blocks {
        if !block_judged(g, mem, asked, bits, cover, s, at) {
            return false;
        }
        at += words;
    }
    true
}

// Whether what is asked holds of every block of segment s, whatever its class; one without a class has no records.
fn any_judged(g: Geometry, mem: &[u32], asked: Asked, bits: &[u32], cover: &[u32], s: usize) -> bool
    requires { (Sized g (length mem.now)) × (len g Region.marks ≤ length cover.now) × Known g (mem_of g mem.now) bits.now × (s < g.segments) }
    ensures { Decides result (SegmentJudged asked g (mem_of g mem.now) bits.now cover.now s) }
{
    let class = segments::class(g, mem, s);
    if classes::is_class(class) {
        return segment_judged(g, mem, asked, bits, cover, s, class);
    }
    true
}

// Whether what is asked holds of every block of every segment.
pub fn judged(g: Geometry, mem: &[u32], asked: Asked, bits: &[u32], cover: &[u32]) -> bool
    requires { (Sized g (length mem.now)) × (len g Region.marks ≤ length cover.now) × Known g (mem_of g mem.now) bits.now }
    ensures { Decides result (Judged asked g (mem_of g mem.now) bits.now cover.now) }
{
    (0..g.segments).all(|s| any_judged(g, mem, asked, bits, cover, s))
}
