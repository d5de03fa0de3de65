// The mutators' calls on a record's fields. No call has a `requires`; each keeps the model's promise of it. Over memory that fails the
// examination a word may name no record: then the answer is 13.
#![tactic(auto)]

ghost use Rattle.theory.specs.Calls.{c_load, c_get, c_put, c_shape};
ghost use Rattle.model.specs.Promise.{Promise};

use layout::Geometry;
use model::{Answer, Held, Refusal};

// Root `to` gets what pointer `field` of the record in root `root` holds.
pub fn load(
    g: Geometry,
    mem: &mut [u32],
    mutator: u32,
    to: u32,
    root: u32,
    field: u32,
) -> Result<Answer, Refusal>
    ensures { Promise (c_load mutator to root field) g mem.old result mem.new }
{
    model::require_size(g, mem)?;
    mutators::require_roots(g, mem, mutator, to, root)?;
    let slot = records::held_of(mutators::root(g, mem, mutator, root));
    let Held::Record(at) = slot else {
        return Err(Refusal::Nil);
    };
    let word = records::pointer_at(g, mem, at, field)?;
    let held = records::field(g, mem, word);
    mutators::set_root(g, mem, mutator, to, held);
    Ok(Answer::Done)
}

// Value `field` of the record in root `root`.
pub fn get(g: Geometry, mem: &[u32], mutator: u32, root: u32, field: u32) -> Result<Answer, Refusal>
    ensures { Promise (c_get mutator root field) g mem.now result mem.now }
{
    model::require_size(g, mem)?;
    mutators::require_root(g, mem, mutator, root)?;
    let slot = records::held_of(mutators::root(g, mem, mutator, root));
    let Held::Record(at) = slot else {
        return Err(Refusal::Nil);
    };
    let word = records::value_at(g, mem, at, field)?;
    let value = records::field(g, mem, word);
    Ok(Answer::Number(value))
}

// Value `field` of the record in root `root` becomes `value`.
pub fn put(
    g: Geometry,
    mem: &mut [u32],
    mutator: u32,
    root: u32,
    field: u32,
    value: u32,
) -> Result<Answer, Refusal>
    ensures { Promise (c_put mutator root field value) g mem.old result mem.new }
{
    model::require_size(g, mem)?;
    mutators::require_root(g, mem, mutator, root)?;
    let slot = records::held_of(mutators::root(g, mem, mutator, root));
    let Held::Record(at) = slot else {
        return Err(Refusal::Nil);
    };
    let word = records::value_at(g, mem, at, field)?;
    records::set_field(g, mem, word, value);
    Ok(Answer::Done)
}

// How many pointers and how many values the record in root `root` has.
pub fn shape(g: Geometry, mem: &[u32], mutator: u32, root: u32) -> Result<Answer, Refusal>
    ensures { Promise (c_shape mutator root) g mem.now result mem.now }
{
    model::require_size(g, mem)?;
    mutators::require_root(g, mem, mutator, root)?;
    let slot = records::held_of(mutators::root(g, mem, mutator, root));
    let Held::Record(at) = slot else {
        return Err(Refusal::Nil);
    };
    let end = layout::heap_words(g);
    if end <= at {
        return Err(Refusal::Torn);
    }
    Ok(Answer::Shape(records::shape(g, mem, at)))
}
