// The trace stack in the lent slice: what is pushed. Over memory of any content nothing is read or written off its region; where a record has no
// bit, or the stack no room, the answer says so.
#![tactic(auto)]

ghost use Rattle.std.specs.Prelude.{◌≡◌, ◌*◌, ◌<◌, length};
ghost use Rattle.layout.specs.Geometry.{Sized, most_blocks, mutator_count};
ghost use Rattle.layout.specs.Mem.{mem_of};
ghost use Rattle.tracing.specs.Pushing.{PushesBit, Pushes, BarrierRuns};
ghost use Rattle.tracing.specs.Roots.{PushesRoots};

use layout::Geometry;
use model::Duty;

// Pushes the record of a word and a bit, unless its bit is set; false where the stack has no room.
fn push_bit(g: Geometry, mem: &mut [u32], w: u32, k: usize) -> bool
    requires { (Sized g (length mem.old)) × (k < g.segments * most_blocks g) }
    ensures { PushesBit g (mem_of g mem.old) w k result (mem_of g mem.new) }
{
    if marks::is_set(g, mem, k) {
        return true;
    }
    let count = control::trace_count(g, mem);
    if layout::trace_words(g) <= count as usize {
        return false;
    }
    marks::set(g, mem, k);
    layout::set_trace(g, mem, count as usize, w);
    control::set_trace_count(g, mem, count + 1);
    true
}

// Pushes the record that a word names; false where it has no bit, or the stack no room.
pub fn push(g: Geometry, mem: &mut [u32], w: u32) -> bool
    requires { Sized g (length mem.old) }
    ensures { Pushes g (mem_of g mem.old) w result (mem_of g mem.new) }
{
    if w == 0 {
        return true;
    }
    match marks::record_bit(g, (w - 1) as usize) {
        None => false,
        Some(k) => push_bit(g, mem, w, k),
    }
}

// The write barrier of a store: the new value and then the old, the old, or nothing.
pub fn barrier(g: Geometry, mem: &mut [u32], duty: Duty, new: u32, old: u32) -> bool
    requires { Sized g (length mem.old) }
    ensures { BarrierRuns g (mem_of g mem.old) duty new old result (mem_of g mem.new) }
{
    match duty {
        Duty::Nothing => true,
        Duty::Both => {
            if push(g, mem, new) {
                return push(g, mem, old);
            }
            false
        }
        Duty::Old => push(g, mem, old),
    }
}

// Pushes the roots of mutator k, in order; false where one has no bit, or the stack no room.
#[tactic(auto, using(crate::proofs::Roots::pushed_one_by_one))]
pub fn push_roots(g: Geometry, mem: &mut [u32], k: u32) -> bool
    requires { (Sized g (length mem.old)) × (k < mutator_count) }
    ensures { PushesRoots g (mem_of g mem.old) k result (mem_of g mem.new) }
{
    for i in 0..layout::ROOTS {
        let w = mutators::root(g, mem, k, i);
        if !push(g, mem, w) {
            return false;
        }
    }
    true
}
