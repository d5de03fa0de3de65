// The examination: whether the memory is consistent, decided over memory of any content. Sizes first, refusal 1 and not a word changed; else yes or no, and
// the scratch ends all zero.
#![tactic(auto)]

ghost use Rattle.std.specs.Prelude.{◌≡◌, ℕ, ◌≤◌, length, replicate};
ghost use Rattle.basics.specs.Decides.{Decides};
ghost use Rattle.layout.specs.Geometry.{Sized, IsSize, scratch_words, max_segments};
ghost use Rattle.layout.specs.Mem.{mem_of};
ghost use Rattle.model.specs.Consistent.{Consistent};
ghost use Rattle.model.specs.Promise.{ExaminePromise};

use layout::Geometry;
use model::Refusal;

// The length of the scratch: two bits for each block, and a stack with an entry for each.
pub fn scratch_words(g: Geometry) -> usize
    requires { (g.segments ≤ max_segments) × (IsSize g.kib) }
    ensures { result ≡ scratch_words g }
{
    let entries = layout::trace_words(g);
    let field = entries / 32;
    field + field + entries
}

// Whether the memory is consistent: both halves of the definition. The scratch ends all zero.
fn consistent(g: Geometry, mem: &[u32], scratch: &mut [u32]) -> bool
    requires { (Sized g (length mem.now)) × (length scratch.old ≡ scratch_words g) }
    ensures { Decides result (Consistent g (mem_of g mem.now)) × (scratch.new ≡ replicate (scratch_words g) 0) }
{
    examine_sound::sound(g, mem, scratch) && examine_summed::summed(g, mem)
}

// The examination: refused 1 for a wrong size, else whether the memory is consistent.
pub fn examine(g: Geometry, mem: &[u32], scratch: &mut [u32]) -> Result<bool, Refusal>
    ensures { ExaminePromise g mem.now scratch.old result scratch.new }
{
    model::require_size(g, mem)?;
    let words = scratch_words(g);
    if scratch.len() != words {
        return Err(Refusal::Size);
    }
    Ok(consistent(g, mem, scratch))
}
