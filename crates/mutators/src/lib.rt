// Mutators' entries in the lent slice: whether a mutator may call, its roots, its state, its acknowledgements and what it holds.
#![tactic(auto)]

ghost use Rattle.std.specs.Prelude.{◌≡◌, ◌<◌, length};
ghost use Rattle.basics.specs.Decides.{Decides};
ghost use Rattle.classes.specs.Class.{IsClass};
ghost use Rattle.layout.specs.Geometry.{Sized, mutator_count, root_count};
ghost use Rattle.layout.specs.Mem.{mem_of};
ghost use Rattle.theory.specs.Calls.{if_root};
ghost use Rattle.model.specs.Fields.{inside, root, set_root, state, set_mutator_state, acks, set_acks, holding, set_holding};
ghost use Rattle.model.specs.Mutators.{set_entry};
ghost use Rattle.model.specs.Refusals.{number_or_0};
ghost use Rattle.mutators.specs.Inside.{inside_then};
ghost use Rattle.mutators.specs.Entry.{entry_of};

use layout::Geometry;
use model::Refusal;

// The states of a mutator, as its entry has them.
pub const ABSENT: u32 = 0;

pub const INSIDE: u32 = 1;

pub const OUTSIDE: u32 = 2;

// The state of mutator k.
pub fn state(g: Geometry, mem: &[u32], k: u32) -> u32
    requires { (Sized g (length mem.now)) × (k < mutator_count) }
    ensures { result ≡ state (mem_of g mem.now) k }
{
    layout::mutator(
        g,
        mem,
        k as usize * layout::MUTATOR_WORDS + layout::STATE_AT,
    )
}

pub fn set_state(g: Geometry, mem: &mut [u32], k: u32, v: u32)
    requires { (Sized g (length mem.old)) × (k < mutator_count) }
    ensures { mem_of g mem.new ≡ set_mutator_state (mem_of g mem.old) k v }
{
    layout::set_mutator(
        g,
        mem,
        k as usize * layout::MUTATOR_WORDS + layout::STATE_AT,
        v,
    );
}

// How many of a cycle's two handshakes mutator k has acknowledged.
pub fn acks(g: Geometry, mem: &[u32], k: u32) -> u32
    requires { (Sized g (length mem.now)) × (k < mutator_count) }
    ensures { result ≡ acks (mem_of g mem.now) k }
{
    layout::mutator(g, mem, k as usize * layout::MUTATOR_WORDS + layout::ACKS_AT)
}

pub fn set_acks(g: Geometry, mem: &mut [u32], k: u32, v: u32)
    requires { (Sized g (length mem.old)) × (k < mutator_count) }
    ensures { mem_of g mem.new ≡ set_acks (mem_of g mem.old) k v }
{
    layout::set_mutator(
        g,
        mem,
        k as usize * layout::MUTATOR_WORDS + layout::ACKS_AT,
        v,
    );
}

// What mutator k holds of a class: 0, or 1 + the segment.
pub fn holding(g: Geometry, mem: &[u32], k: u32, class: u32) -> u32
    requires { (Sized g (length mem.now)) × (k < mutator_count) × IsClass class }
    ensures { result ≡ holding (mem_of g mem.now) k class }
{
    layout::mutator(
        g,
        mem,
        k as usize * layout::MUTATOR_WORDS
            + layout::HELD_FROM
            + (class - classes::FIRST_CLASS) as usize,
    )
}

pub fn set_holding(g: Geometry, mem: &mut [u32], k: u32, class: u32, v: u32)
    requires { (Sized g (length mem.old)) × (k < mutator_count) × IsClass class }
    ensures { mem_of g mem.new ≡ set_holding (mem_of g mem.old) k class v }
{
    layout::set_mutator(
        g,
        mem,
        k as usize * layout::MUTATOR_WORDS
            + layout::HELD_FROM
            + (class - classes::FIRST_CLASS) as usize,
        v,
    );
}

// The lowest refusal, 2, 4, 5 or 6, of a call by a mutator that must be inside with two roots, if there is one.
fn require_all(g: Geometry, mem: &[u32], k: u32, i: u32, j: u32) -> Result<(), Refusal>
    requires { Sized g (length mem.now) }
    ensures { number_or_0 result ≡ inside_then (mem_of g mem.now) k (if_root i (if_root j 0)) }
{
    if layout::MUTATORS <= k {
        return Err(Refusal::Mutator);
    }
    let state = state(g, mem, k);
    if state == ABSENT {
        return Err(Refusal::Absent);
    }
    if state != INSIDE {
        return Err(Refusal::Side);
    }
    if layout::ROOTS <= i {
        return Err(Refusal::Root);
    }
    if layout::ROOTS <= j {
        return Err(Refusal::Root);
    }
    Ok(())
}

// Whether mutator k is attached and inside.
fn is_inside(g: Geometry, mem: &[u32], k: u32) -> bool
    requires { Sized g (length mem.now) }
    ensures { Decides result ((k < mutator_count) × (state (mem_of g mem.now) k ≡ inside)) }
{
    if layout::MUTATORS <= k {
        return false;
    }
    state(g, mem, k) == INSIDE
}

// The refusal 2, 4 or 5 of a call by a mutator that must be inside, if there is one. Here and below it is looked for only where the call does not pass:
// that takes fewer instructions on the way of a call that does.
pub fn require_inside(g: Geometry, mem: &[u32], k: u32) -> Result<(), Refusal>
    requires { Sized g (length mem.now) }
    ensures { number_or_0 result ≡ inside_then (mem_of g mem.now) k 0 }
{
    if is_inside(g, mem, k) {
        return Ok(());
    }
    require_all(g, mem, k, 0, 0)
}

// The refusal 2, 4, 5 or 6 of a call by a mutator that must be inside, 6 unless i is a root's index; if there is one.
pub fn require_root(g: Geometry, mem: &[u32], k: u32, i: u32) -> Result<(), Refusal>
    requires { Sized g (length mem.now) }
    ensures { number_or_0 result ≡ inside_then (mem_of g mem.now) k (if_root i 0) }
{
    if is_inside(g, mem, k) {
        if i < layout::ROOTS {
            return Ok(());
        }
    }
    require_all(g, mem, k, i, 0)
}

// The refusal 2, 4, 5 or 6 of a call by a mutator that must be inside, 6 unless i and j are roots' indices; if there is one.
pub fn require_roots(g: Geometry, mem: &[u32], k: u32, i: u32, j: u32) -> Result<(), Refusal>
    requires { Sized g (length mem.now) }
    ensures { number_or_0 result ≡ inside_then (mem_of g mem.now) k (if_root i (if_root j 0)) }
{
    if is_inside(g, mem, k) {
        if i < layout::ROOTS {
            if j < layout::ROOTS {
                return Ok(());
            }
        }
    }
    require_all(g, mem, k, i, j)
}

// Root i of mutator k.
pub fn root(g: Geometry, mem: &[u32], k: u32, i: u32) -> u32
    requires { (Sized g (length mem.now)) × (k < mutator_count) × (i < root_count) }
    ensures { result ≡ root (mem_of g mem.now) k i }
{
    layout::mutator(g, mem, k as usize * layout::MUTATOR_WORDS + i as usize)
}

pub fn set_root(g: Geometry, mem: &mut [u32], k: u32, i: u32, v: u32)
    requires { (Sized g (length mem.old)) × (k < mutator_count) × (i < root_count) }
    ensures { mem_of g mem.new ≡ set_root (mem_of g mem.old) k i v }
{
    layout::set_mutator(g, mem, k as usize * layout::MUTATOR_WORDS + i as usize, v);
}

// The entry of mutator k written whole: root 0, its state and its acknowledgements; its other roots are nil, and it holds nothing.
pub fn write_entry(g: Geometry, mem: &mut [u32], k: u32, root: u32, state: u32, acks: u32)
    requires { (Sized g (length mem.old)) × (k < mutator_count) }
    ensures { mem_of g mem.new ≡ set_entry (mem_of g mem.old) k (entry_of root state acks) }
{
    layout::clear_entry(g, mem, k as usize);
    set_root(g, mem, k, 0, root);
    set_state(g, mem, k, state);
    set_acks(g, mem, k, acks);
}
