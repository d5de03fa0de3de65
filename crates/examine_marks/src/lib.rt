// The examination's part on the bits among the marks, over memory of any content: each is of the head of a block in use; in handshake 1 each is of an
// entry of the trace stack, which is in order: then there are as many as entries.
#![tactic(auto)]

ghost use Rattle.std.specs.Prelude.{◌≡◌, ℕ, ◌+◌, ◌*◌, ◌<◌, length};
ghost use Rattle.basics.specs.Decides.{Decides};
ghost use Rattle.layout.specs.Geometry.{Sized, len, segment_of, most_blocks};
ghost use Rattle.layout.specs.Mem.{mem_of};
ghost use Rattle.model.specs.Consistent.{HeadInUse};
ghost use Rattle.examine_record.specs.Tests.{Classed};
ghost use Rattle.examine_trace.specs.Traced.{Traced};
ghost use Rattle.examine_marks.specs.Heads.{Classes, Asked, BitFine, MarksIn, OnlyEntries};
ghost use Rattle.layout.specs.Region as Region;

use layout::Geometry;
use model::Segment;

// Whether a word in a segment of a class is the head of a block in use.
fn head_in(g: Geometry, mem: &[u32], at: usize, s: usize, class: u32) -> bool
    requires { (Sized g (length mem.now)) × (at < len g Region.heap) × (s ≡ segment_of g at) × Classed (mem_of g mem.now) s class }
    ensures { Decides result (HeadInUse g (mem_of g mem.now) at) }
{
    let offset = layout::offset_of(g, at);
    let words = classes::block_words(class);
    if offset % words != 0 {
        return false;
    }
    examine_record::is_used(g, mem, s, offset / words)
}

// Whether a word in a segment that may be free is the head of a block in use.
fn head(g: Geometry, mem: &[u32], at: usize, s: usize) -> bool
    requires { (Sized g (length mem.now)) × (at < len g Region.heap) × (s ≡ segment_of g at) × Classes g (mem_of g mem.now) }
    ensures { Decides result (HeadInUse g (mem_of g mem.now) at) }
{
    let tag = segments::tag(g, mem, s);
    if tag == Segment::TAG_FREE {
        return false;
    }
    let class = segments::class(g, mem, s);
    head_in(g, mem, at, s, class)
}

// Whether the bits of segment s are asked of: those of every segment, or of the condemned ones only.
// Kept: `MarksIn`, `BitFine` and `Asked` hold the bool as a value.
fn asked(g: Geometry, mem: &[u32], s: usize, condemned_only: bool) -> bool
    requires { (Sized g (length mem.now)) × (s < g.segments) }
    ensures { Decides result (Asked condemned_only (mem_of g mem.now) s) }
{
    if !condemned_only {
        return true;
    }
    let tag = segments::tag(g, mem, s);
    tag == Segment::TAG_CONDEMNED
}

// Whether bit k, if it is 1 and asked of, is of the head of a block in use.
fn bit_fine(g: Geometry, mem: &[u32], k: usize, condemned_only: bool) -> bool
    requires { (Sized g (length mem.now)) × (k < g.segments * most_blocks g) × Classes g (mem_of g mem.now) }
    ensures { Decides result (BitFine condemned_only g (mem_of g mem.now) k) }
{
    if !marks::is_set(g, mem, k) {
        return true;
    }
    let at = k * classes::block_words(classes::FIRST_CLASS);
    let s = layout::segment_of(g, at);
    if !asked(g, mem, s, condemned_only) {
        return true;
    }
    head(g, mem, at, s)
}

// Whether the bits of word q that are 1 and asked of are of heads of blocks in use. A word of 0 has none, and is passed at once.
fn word_fine(g: Geometry, mem: &[u32], q: usize, condemned_only: bool) -> bool
    requires { (Sized g (length mem.now)) × (q < len g Region.marks) × Classes g (mem_of g mem.now) }
    ensures { Decides result ((i : ℕ) → i < 32 → BitFine condemned_only g (mem_of g mem.now) (q * 32 + i)) }
{
    if layout::mark(g, mem, q) == 0 {
        return true;
    }
    for i in 0..32 {
        if !bit_fine(g, mem, q * 32 + i, condemned_only) {
            return false;
        }
    }
    true
}

// Whether every bit that is 1 and asked of is of the head of a block in use.
pub fn marks(g: Geometry, mem: &[u32], condemned_only: bool) -> bool
    requires { (Sized g (length mem.now)) × Classes g (mem_of g mem.now) }
    ensures { Decides result (MarksIn condemned_only g (mem_of g mem.now)) }
{
    let words = layout::trace_words(g) / 32;
    for q in 0..words {
        if !word_fine(g, mem, q, condemned_only) {
            return false;
        }
    }
    true
}

// Whether every bit is of an entry of the trace stack, which is in order.
pub fn only_entries(g: Geometry, mem: &[u32]) -> bool
    requires { (Sized g (length mem.now)) × Traced g (mem_of g mem.now) }
    ensures { Decides result (OnlyEntries g (mem_of g mem.now)) }
{
    let n = control::trace_count(g, mem);
    let ones = marks::count(g, mem);
    ones == n
}
