// The collector's start. The call has no `requires`; it keeps the model's promise of it. No word of the memory leads it astray: over memory that
// fails the examination, too, the answer and the memory are the definition's, though that is not promised.
#![tactic(auto)]

ghost use Rattle.std.specs.Prelude.{◌≡◌, ◌<◌, length};
ghost use Rattle.basics.specs.Pick.{pick};
ghost use Rattle.classes.specs.Class.{class_count};
ghost use Rattle.layout.specs.Geometry.{Sized, mutator_count};
ghost use Rattle.layout.specs.Mem.{mem_of};
ghost use Rattle.model.specs.Fields.{set_tag};
ghost use Rattle.model.specs.Collector.{collects, condemned, parts_emptied, acks_reset, started};
ghost use Rattle.model.specs.Promise.{StartPromise};
ghost use Rattle.model.specs.Tag as Tag;

use layout::Geometry;
use model::{Answer, Phase, Refusal, Segment};

// Whether a start condemns segment s.
#[tactic(auto, unfolding(model::specs::Collector::collects))]
fn collects(g: Geometry, mem: &[u32], s: usize) -> bool
    requires { (Sized g (length mem.now)) × (s < g.segments) }
    ensures { result ≡ collects (mem_of g mem.now) s }
{
    let tag = segments::tag(g, mem, s);
    tag == Segment::TAG_FULL || tag == Segment::TAG_PART
}

// Segment s is condemned, if it is one of those: its tag says so, and the rest of its record stays.
fn condemn_one(g: Geometry, mem: &mut [u32], s: usize)
    requires { (Sized g (length mem.old)) × (s < g.segments) }
    ensures { mem_of g mem.new ≡ pick (collects (mem_of g mem.old) s) (set_tag (mem_of g mem.old) s Tag.condemned) (mem_of g mem.old) }
{
    if collects(g, mem, s) {
        segments::set_tag(g, mem, s, Segment::TAG_CONDEMNED);
    }
}

// Every segment that a start condemns becomes condemned.
#[tactic(auto, using(crate::proofs::Beginning::condemned_none, crate::proofs::Beginning::condemned_next))]
fn condemn(g: Geometry, mem: &mut [u32])
    requires { Sized g (length mem.old) }
    ensures { mem_of g mem.new ≡ condemned (mem_of g mem.old) g.segments }
{
    for s in 0..g.segments {
        condemn_one(g, mem, s);
    }
}

// No segment is on a part stack, of whatever class.
#[tactic(auto, using(crate::proofs::Beginning::emptied_none, crate::proofs::Beginning::emptied_next))]
fn empty_parts(g: Geometry, mem: &mut [u32])
    requires { Sized g (length mem.old) }
    ensures { mem_of g mem.new ≡ parts_emptied g (mem_of g mem.old) class_count }
{
    for n in 0..classes::CLASS_COUNT {
        stacks::empty(g, mem, stacks::part_stack(classes::FIRST_CLASS + n));
    }
}

// The acknowledgements of all mutators begin anew.
#[tactic(auto, using(crate::proofs::Beginning::reset_none, crate::proofs::Beginning::reset_next))]
fn reset_acks(g: Geometry, mem: &mut [u32])
    requires { Sized g (length mem.old) }
    ensures { mem_of g mem.new ≡ acks_reset (mem_of g mem.old) mutator_count }
{
    for k in 0..layout::MUTATORS {
        mutators::set_acks(g, mem, k, 0);
    }
}

// A cycle begins: segments condemned, no segment on a part stack, acknowledgements anew, marks cleared, the sweep's cursor before all segments, the first handshake.
fn begin(g: Geometry, mem: &mut [u32])
    requires { Sized g (length mem.old) }
    ensures { mem_of g mem.new ≡ started g (mem_of g mem.old) }
{
    condemn(g, mem);
    empty_parts(g, mem);
    reset_acks(g, mem);
    layout::clear_marks(g, mem);
    control::set_cursor(g, mem, 0);
    control::set_phase(g, mem, Phase::SYNC1);
}

// A cycle begins, unless one runs; where no segment is full or part, a cycle over none.
pub fn start(g: Geometry, mem: &mut [u32]) -> Result<Answer, Refusal>
    ensures { StartPromise g mem.old result mem.new }
{
    model::require_size(g, mem)?;
    let phase = control::phase(g, mem);
    if phase.number != Phase::IDLE {
        return Err(Refusal::NotNow);
    }
    begin(g, mem);
    Ok(Answer::Done)
}
