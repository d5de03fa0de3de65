// store, with its write barrier. It has no `requires` and keeps the model's promise of it. Over memory that fails the examination a record
// may have no bit, or the trace stack no room: then the answer is 13.
#![tactic(auto)]

ghost use Rattle.std.specs.Prelude.{◌≡◌, ◌<◌, length};
ghost use Rattle.layout.specs.Geometry.{Sized, len, mutator_count};
ghost use Rattle.layout.specs.Mem.{mem_of};
ghost use Rattle.theory.specs.Calls.{c_store};
ghost use Rattle.model.specs.Promise.{Promise};
ghost use Rattle.storing.specs.Stored.{Stores};
ghost use Rattle.layout.specs.Region as Region;

use layout::Geometry;
use model::{Answer, Held, Refusal};

// A word of the heap gets a value, after the barrier of the mutator.
fn store_at(
    g: Geometry,
    mem: &mut [u32],
    mutator: u32,
    word: usize,
    new: u32,
) -> Result<Answer, Refusal>
    requires { (Sized g (length mem.old)) × (mutator < mutator_count) × (word < len g Region.heap) }
    ensures { Stores g (mem_of g mem.old) mutator word new result (mem_of g mem.new) }
{
    let phase = control::phase(g, mem);
    let duty = phase.duty(mutators::acks(g, mem, mutator));
    let old = records::field(g, mem, word);
    if tracing::barrier(g, mem, duty, new, old) {
        records::set_field(g, mem, word, new);
        return Ok(Answer::Done);
    }
    Err(Refusal::Torn)
}

// Pointer `field` of the record in root `root` gets what root `from` holds.
pub fn store(
    g: Geometry,
    mem: &mut [u32],
    mutator: u32,
    root: u32,
    field: u32,
    from: u32,
) -> Result<Answer, Refusal>
    ensures { Promise (c_store mutator root field from) g mem.old result mem.new }
{
    model::require_size(g, mem)?;
    mutators::require_roots(g, mem, mutator, root, from)?;
    let slot = records::held_of(mutators::root(g, mem, mutator, root));
    let Held::Record(at) = slot else {
        return Err(Refusal::Nil);
    };
    let word = records::pointer_at(g, mem, at, field)?;
    let new = mutators::root(g, mem, mutator, from);
    store_at(g, mem, mutator, word, new)
}
