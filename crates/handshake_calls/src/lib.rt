// The mutators' calls of a handshake: check, leave and enter. None of the three calls has a `requires`; each keeps the model's promise of it. Over memory that
// fails the examination a root may name no record with a bit, or the trace stack have no room: then the answer is 13.
#![tactic(auto)]

ghost use Rattle.std.specs.Prelude.{◌≡◌, ◌<◌, length};
ghost use Rattle.layout.specs.Geometry.{Sized, mutator_count};
ghost use Rattle.layout.specs.Mem.{mem_of};
ghost use Rattle.theory.specs.Calls.{c_check, c_leave, c_enter};
ghost use Rattle.model.specs.Promise.{Promise};
ghost use Rattle.handshake_calls.specs.Acknowledging.{Acknowledges};

use layout::Geometry;
use model::{Answer, Phase, Refusal};

// The mutator gives the acknowledgement that it owes, if any; in the second handshake its roots are pushed, and false says that one cannot be.
pub fn acknowledge(g: Geometry, mem: &mut [u32], mutator: u32) -> bool
    requires { (Sized g (length mem.old)) × (mutator < mutator_count) }
    ensures { Acknowledges g (mem_of g mem.old) mutator result (mem_of g mem.new) }
{
    let phase = control::phase(g, mem);
    let number = phase.number;
    if phase.owes(mutators::acks(g, mem, mutator)) {
        if number == Phase::SYNC2 {
            mutators::set_acks(g, mem, mutator, 2);
            return tracing::push_roots(g, mem, mutator);
        }
        mutators::set_acks(g, mem, mutator, 1);
    }
    true
}

// A mutator that owes an acknowledgement gives it.
pub fn check(g: Geometry, mem: &mut [u32], mutator: u32) -> Result<Answer, Refusal>
    ensures { Promise (c_check mutator) g mem.old result mem.new }
{
    model::require_size(g, mem)?;
    mutators::require_inside(g, mem, mutator)?;
    if !acknowledge(g, mem, mutator) {
        return Err(Refusal::Torn);
    }
    Ok(Answer::Done)
}

// A mutator that owes an acknowledgement gives it, and then the mutator is outside.
pub fn leave(g: Geometry, mem: &mut [u32], mutator: u32) -> Result<Answer, Refusal>
    ensures { Promise (c_leave mutator) g mem.old result mem.new }
{
    model::require_size(g, mem)?;
    mutators::require_inside(g, mem, mutator)?;
    let given = acknowledge(g, mem, mutator);
    if !given {
        return Err(Refusal::Torn);
    }
    mutators::set_state(g, mem, mutator, mutators::OUTSIDE);
    Ok(Answer::Done)
}

// A mutator outside is inside; an acknowledgement that it owes stays owed.
pub fn enter(g: Geometry, mem: &mut [u32], mutator: u32) -> Result<Answer, Refusal>
    ensures { Promise (c_enter mutator) g mem.old result mem.new }
{
    model::require_size(g, mem)?;
    if layout::MUTATORS <= mutator {
        return Err(Refusal::Mutator);
    }
    let state = mutators::state(g, mem, mutator);
    if state == mutators::ABSENT {
        return Err(Refusal::Absent);
    }
    if state == mutators::INSIDE {
        return Err(Refusal::Side);
    }
    mutators::set_state(g, mem, mutator, mutators::INSIDE);
    Ok(Answer::Done)
}
