// The collector's step: a step in a handshake stands here, the steps in mark and sweep in `marking` and `sweeping`. The call has no `requires`; it keeps the
// model's promise of it. Over memory that fails the examination the acknowledgement of a mutator outside may be hindered, or the phase be none: then
// the answer is 13.
#![tactic(auto)]

ghost use Rattle.std.specs.Prelude.{◌≡◌, ◌<◌, ◌≤◌, length};
ghost use Rattle.layout.specs.Geometry.{Sized, mutator_count};
ghost use Rattle.layout.specs.Mem.{mem_of};
ghost use Rattle.theory.specs.Phases.{sweep};
ghost use Rattle.model.specs.PhaseNumbers.{phase_of, phase_number};
ghost use Rattle.model.specs.Collector.{waiting};
ghost use Rattle.model.specs.Promise.{StepPromise};
ghost use Rattle.model.specs.StepParts.{StepsAs};
ghost use Rattle.stepping.specs.Handshaking.{NextOutside, AnswersOutside, waits, handshakes};

use layout::Geometry;
use model::{Phase, Step};

// The first mutator outside, from a number on, if there is one.
fn next_outside(g: Geometry, mem: &[u32], from: u32) -> Option<u32>
    requires { (Sized g (length mem.now)) × (from ≤ mutator_count) }
    ensures { NextOutside (mem_of g mem.now) from result }
{
    for j in from..layout::MUTATORS {
        if mutators::state(g, mem, j) == mutators::OUTSIDE {
            return Some(j);
        }
    }
    None
}

// The mutators that are outside give the acknowledgements that they owe, in number order; false says that a root of one cannot be pushed.
// The next one is looked for by a scan, so that what an acknowledgement does weighs on no mutator that is not outside; the scan is called before
// the loop and at its end, since one call at the loop's head takes 507 instructions where these take 361.
fn answer_outside(g: Geometry, mem: &mut [u32]) -> bool
    requires { Sized g (length mem.old) }
    ensures { AnswersOutside g (mem_of g mem.old) result (mem_of g mem.new) }
{
    let mut next = next_outside(g, mem, 0);
    while let Some(k) = next {
        if !handshake_calls::acknowledge(g, mem, k) {
            return false;
        }
        next = next_outside(g, mem, k + 1);
    }
    true
}

// 1 where mutator i is inside and owes an acknowledgement, else 0.
#[tactic(auto, unfolding(crate::specs::Handshaking::waits))]
fn waits(g: Geometry, mem: &[u32], phase: Phase, i: u32) -> u32
    requires { (Sized g (length mem.now)) × (i < mutator_count) }
    ensures { result ≡ waits (mem_of g mem.now) (phase_of phase.number) i }
{
    let owes = mutators::state(g, mem, i) == mutators::INSIDE
        && phase.owes(mutators::acks(g, mem, i));
    u32::from(owes)
}

// How many mutators that are inside owe an acknowledgement.
#[tactic(auto, using(crate::proofs::Counting::counted_one_by_one))]
fn waiting(g: Geometry, mem: &[u32]) -> u32
    requires { Sized g (length mem.now) }
    ensures { result ≡ waiting (mem_of g mem.now) mutator_count }
{
    let phase = control::phase(g, mem);
    let mut n = 0;
    for i in 0..layout::MUTATORS {
        n += waits(g, mem, phase, i);
    }
    n
}

// A step in a handshake, after which the phase is the next one unless mutators that are inside still owe.
fn handshake(g: Geometry, mem: &mut [u32], next: u32) -> Step
    requires { (Sized g (length mem.old)) × (next ≤ phase_number sweep) }
    ensures { StepsAs (handshakes (phase_of next)) g (mem_of g mem.old) result (mem_of g mem.new) }
{
    if answer_outside(g, mem) {
        let n = waiting(g, mem);
        if n != 0 {
            return Step::Waiting(n);
        }
        control::set_phase(g, mem, next);
        return Step::Moved;
    }
    Step::Refused(13)
}

// A step by the phase. A word that is no phase's number is torn.
pub fn step(g: Geometry, mem: &mut [u32]) -> Step
    ensures { StepPromise g mem.old result mem.new }
{
    if layout::wrong_size(g, mem.len()) {
        return Step::Refused(1);
    }
    let phase = control::phase(g, mem);
    let number = phase.number;
    if number == Phase::MARK {
        return marking::trace(g, mem);
    }
    match number {
        Phase::IDLE => Step::Idle,
        Phase::SYNC1 => handshake(g, mem, Phase::SYNC2),
        Phase::SYNC2 => handshake(g, mem, Phase::MARK),
        Phase::SWEEP => sweeping::sweep(g, mem),
        _ => Step::Refused(13),
    }
}
