// The opening: over memory of any content it leaves every segment free, no mutator attached, the trace stack empty and the phase IDLE.
#![tactic(auto)]

ghost use Rattle.std.specs.Prelude.{◌≡◌, ◌+◌, ◌≤◌, length};
ghost use Rattle.layout.specs.Geometry.{Sized, len, max_segments};
ghost use Rattle.layout.specs.Mem.{mem_of};
ghost use Rattle.model.specs.Promise.{OpenPromise};
ghost use Rattle.opening.specs.Stacking.{stacked_down};
ghost use Rattle.layout.specs.Region as Region;

use layout::Geometry;
use model::{Answer, Refusal};

// The segments n - 1 down to 0, from word `at` of the stacks on.
#[tactic(auto, using(crate::proofs::Stacks::left_all, crate::proofs::Stacks::left_next, crate::proofs::Stacks::left_none))]
fn stack_down(g: Geometry, mem: &mut [u32], at: usize, n: usize)
    requires { (Sized g (length mem.old)) × (at + n ≤ len g Region.stacks) × (n ≤ max_segments) }
    ensures { mem_of g mem.new ≡ stacked_down (mem_of g mem.old) at n }
{
    for i in 0..n {
        layout::set_stack(g, mem, at + i, (n - 1 - i) as u32);
    }
}

pub fn open(g: Geometry, mem: &mut [u32]) -> Result<Answer, Refusal>
    ensures { OpenPromise g mem.old result mem.new }
{
    model::require_size(g, mem)?;
    layout::clear_control(g, mem);
    layout::clear_mutators(g, mem);
    layout::clear_segments(g, mem);
    layout::clear_stacks(g, mem);
    layout::set_stack(g, mem, 0, g.segments as u32);
    stack_down(g, mem, 1, g.segments);
    Ok(Answer::Done)
}
