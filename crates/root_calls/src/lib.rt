// The mutators' calls on roots alone: copy, clear and same. No call has a `requires`; each keeps the model's promise of it.
#![tactic(auto)]

ghost use Rattle.theory.specs.Calls.{c_copy, c_clear, c_same};
ghost use Rattle.model.specs.Promise.{Promise};

use layout::Geometry;
use model::{Answer, Refusal};

// Root `to` gets what root `from` holds.
pub fn copy(
    g: Geometry,
    mem: &mut [u32],
    mutator: u32,
    to: u32,
    from: u32,
) -> Result<Answer, Refusal>
    ensures { Promise (c_copy mutator to from) g mem.old result mem.new }
{
    model::require_size(g, mem)?;
    mutators::require_roots(g, mem, mutator, to, from)?;
    let held = mutators::root(g, mem, mutator, from);
    mutators::set_root(g, mem, mutator, to, held);
    Ok(Answer::Done)
}

// Root `to` gets nil.
pub fn clear(g: Geometry, mem: &mut [u32], mutator: u32, to: u32) -> Result<Answer, Refusal>
    ensures { Promise (c_clear mutator to) g mem.old result mem.new }
{
    model::require_size(g, mem)?;
    mutators::require_root(g, mem, mutator, to)?;
    mutators::set_root(g, mem, mutator, to, 0);
    Ok(Answer::Done)
}

// Whether two roots are equal.
pub fn same(
    g: Geometry,
    mem: &[u32],
    mutator: u32,
    root: u32,
    other: u32,
) -> Result<Answer, Refusal>
    ensures { Promise (c_same mutator root other) g mem.now result mem.now }
{
    model::require_size(g, mem)?;
    mutators::require_roots(g, mem, mutator, root, other)?;
    let first = mutators::root(g, mem, mutator, root);
    let second = mutators::root(g, mem, mutator, other);
    Ok(Answer::Same(first == second))
}
