// The mutators' calls of coming and going: attach, spawn and detach. None of the three has a `requires`; each keeps the model's promise of it. Over memory
// that fails the examination an entry may name a segment that is none, or a part stack have no room: then the answer is 13.
#![tactic(auto)]

ghost use Rattle.std.specs.Prelude.{◌≡◌, ◌<◌, length};
ghost use Rattle.classes.specs.Class.{IsClass};
ghost use Rattle.layout.specs.Geometry.{Sized, mutator_count};
ghost use Rattle.layout.specs.Mem.{mem_of};
ghost use Rattle.theory.specs.Calls.{c_attach, c_spawn, c_detach};
ghost use Rattle.model.specs.Promise.{Promise};
ghost use Rattle.model.specs.Refusals.{number_or_0};
ghost use Rattle.attaching.specs.Coming.{Admits, spawn_refusal};
ghost use Rattle.attaching.specs.Going.{ReleasesOne, Releases};

use layout::Geometry;
use model::{Answer, Refusal, SegmentState};

// The mutator comes inside with a value in root 0, unless the phase is a handshake.
fn admit(g: Geometry, mem: &mut [u32], mutator: u32, root: u32) -> Result<Answer, Refusal>
    requires { (Sized g (length mem.old)) × (mutator < mutator_count) }
    ensures { Admits (mem_of g mem.old) mutator root result (mem_of g mem.new) }
{
    let phase = control::phase(g, mem);
    if phase.in_handshake() {
        return Err(Refusal::NotNow);
    }
    let acks = phase.newcomer();
    mutators::write_entry(g, mem, mutator, root, mutators::INSIDE, acks);
    Ok(Answer::Done)
}

// A mutator comes, with nil roots.
pub fn attach(g: Geometry, mem: &mut [u32], mutator: u32) -> Result<Answer, Refusal>
    ensures { Promise (c_attach mutator) g mem.old result mem.new }
{
    model::require_size(g, mem)?;
    if layout::MUTATORS <= mutator {
        return Err(Refusal::Mutator);
    }
    let state = mutators::state(g, mem, mutator);
    if state != mutators::ABSENT {
        return Err(Refusal::Taken);
    }
    admit(g, mem, mutator, 0)
}

// The lowest of the refusals 2 to 6 of a spawn, if there is one.
fn require_spawn(
    g: Geometry,
    mem: &[u32],
    mutator: u32,
    parent: u32,
    root: u32,
) -> Result<(), Refusal>
    requires { Sized g (length mem.now) }
    ensures { number_or_0 result ≡ spawn_refusal (mem_of g mem.now) mutator parent root }
{
    if layout::MUTATORS <= mutator {
        return Err(Refusal::Mutator);
    }
    if layout::MUTATORS <= parent {
        return Err(Refusal::Mutator);
    }
    let own = mutators::state(g, mem, mutator);
    if own != mutators::ABSENT {
        return Err(Refusal::Taken);
    }
    mutators::require_root(g, mem, parent, root)
}

// A mutator comes, with a copy of one root of its parent, a mutator inside, in root 0.
pub fn spawn(
    g: Geometry,
    mem: &mut [u32],
    mutator: u32,
    parent: u32,
    root: u32,
) -> Result<Answer, Refusal>
    ensures { Promise (c_spawn mutator parent root) g mem.old result mem.new }
{
    model::require_size(g, mem)?;
    require_spawn(g, mem, mutator, parent, root)?;
    let held = mutators::root(g, mem, parent, root);
    admit(g, mem, mutator, held)
}

// The segment that the mutator holds of a class goes to part, if there is one; false where the entry names no segment, or the stack has no room.
#[tactic(auto, using(crate::proofs::Going::names_none))]
fn release_one(g: Geometry, mem: &mut [u32], mutator: u32, class: u32) -> bool
    requires { (Sized g (length mem.old)) × (mutator < mutator_count) × IsClass class }
    ensures { ReleasesOne g (mem_of g mem.old) mutator class result (mem_of g mem.new) }
{
    let held = mutators::holding(g, mem, mutator, class);
    if held == 0 {
        return true;
    }
    let s = (held - 1) as usize;
    if g.segments <= s {
        return false;
    }
    let place = segments::place(g, mem, s);
    let state = SegmentState::Part { class, place };
    segments::write(g, mem, s, state);
    stacks::push(g, mem, stacks::part_stack(class), s)
}

// The segments that the mutator holds go to part, in class order; false where one cannot.
#[tactic(auto, using(crate::proofs::Going::released_one_by_one))]
fn release(g: Geometry, mem: &mut [u32], mutator: u32) -> bool
    requires { (Sized g (length mem.old)) × (mutator < mutator_count) }
    ensures { Releases g (mem_of g mem.old) mutator result (mem_of g mem.new) }
{
    for i in 0..classes::CLASS_COUNT {
        if !release_one(g, mem, mutator, classes::FIRST_CLASS + i) {
            return false;
        }
    }
    true
}

// A mutator inside goes: the segments that it holds go to part, and its entry is cleared.
pub fn detach(g: Geometry, mem: &mut [u32], mutator: u32) -> Result<Answer, Refusal>
    ensures { Promise (c_detach mutator) g mem.old result mem.new }
{
    model::require_size(g, mem)?;
    mutators::require_inside(g, mem, mutator)?;
    let now = control::phase(g, mem);
    if now.in_handshake() {
        return Err(Refusal::NotNow);
    }
    if !release(g, mem, mutator) {
        return Err(Refusal::Torn);
    }
    mutators::write_entry(g, mem, mutator, 0, mutators::ABSENT, 0);
    Ok(Answer::Done)
}
