// step in mark: the last entered record is marked and its pointers are pushed, or, with an empty trace stack, the phase moves to sweep. Over
// memory that fails the examination a count or an entry may lead off its region, or a push be hindered: then the answer is 13.
#![tactic(auto)]

ghost use Rattle.std.specs.Prelude.{◌≡◌, ◌+◌, ◌≤◌, ◌<◌, length};
ghost use Rattle.layout.specs.Geometry.{Sized, len};
ghost use Rattle.layout.specs.Mem.{mem_of};
ghost use Rattle.model.specs.Fields.{trace_count};
ghost use Rattle.model.specs.Records.{pointer};
ghost use Rattle.model.specs.Collector.{traces};
ghost use Rattle.model.specs.StepParts.{StepsAs};
ghost use Rattle.marking.specs.Visiting.{PushesPointers, Visits};
ghost use Rattle.layout.specs.Region as Region;

use layout::Geometry;
use model::{Phase, Step};

// Pointer i of the record at a word.
fn pointer(g: Geometry, mem: &[u32], at: usize, i: usize) -> u32
    requires { (Sized g (length mem.now)) × (at + 1 + i < len g Region.heap) }
    ensures { result ≡ pointer (mem_of g mem.now) at i }
{
    records::field(g, mem, at + 1 + i)
}

// Pushes the n pointers of the record at a word, in order; false where one has no bit, or the stack no room.
#[tactic(auto, using(crate::proofs::Pointers::pushed_one_by_one))]
fn push_pointers(g: Geometry, mem: &mut [u32], at: usize, n: usize) -> bool
    requires { (Sized g (length mem.old)) × (at + n < len g Region.heap) }
    ensures { PushesPointers g (mem_of g mem.old) at n result (mem_of g mem.new) }
{
    for i in 0..n {
        let w = pointer(g, mem, at, i);
        if !tracing::push(g, mem, w) {
            return false;
        }
    }
    true
}

// Takes the last entry, the record at a word, off the trace stack, which marks it, and pushes its pointers.
fn visit(g: Geometry, mem: &mut [u32], at: usize) -> Step
    requires { (Sized g (length mem.old)) × (1 ≤ trace_count (mem_of g mem.old)) × (at < len g Region.heap) }
    ensures { Visits g (mem_of g mem.old) at result (mem_of g mem.new) }
{
    let shape = records::shape(g, mem, at);
    let n = shape.pointer_count as usize;
    if layout::heap_words(g) <= at + n {
        return Step::Refused(13);
    }
    let count = control::trace_count(g, mem);
    control::set_trace_count(g, mem, count - 1);
    if push_pointers(g, mem, at, n) {
        return Step::Traced;
    }
    Step::Refused(13)
}

// A step in mark.
pub fn trace(g: Geometry, mem: &mut [u32]) -> Step
    requires { Sized g (length mem.old) }
    ensures { StepsAs (λ g m. traces g (trace_count m) m) g (mem_of g mem.old) result (mem_of g mem.new) }
{
    let count = control::trace_count(g, mem);
    if count == 0 {
        control::set_phase(g, mem, Phase::SWEEP);
        return Step::Moved;
    }
    let last = (count - 1) as usize;
    if layout::trace_words(g) <= last {
        return Step::Refused(13);
    }
    let w = layout::trace(g, mem, last);
    if w == 0 {
        return Step::Refused(13);
    }
    let at = (w - 1) as usize;
    if layout::heap_words(g) <= at {
        return Step::Refused(13);
    }
    visit(g, mem, at)
}
