// The stacks of free and of part segments in the lent slice. Over memory of any content nothing is read or written off its region; where a count
// or an entry cannot be right, or a stack has no room, the answer says so.
#![tactic(auto)]

ghost use Rattle.std.specs.Prelude.{◌≡◌, ◌<◌, ◌≤◌, length};
ghost use Rattle.classes.specs.Class.{IsClass};
ghost use Rattle.layout.specs.Geometry.{Sized, stack_count, max_segments};
ghost use Rattle.layout.specs.Mem.{mem_of};
ghost use Rattle.model.specs.Segments.{free_stack, part_stack, pop, emptied};
ghost use Rattle.stacks.specs.Stacking.{StackAt, Tops, PushesSegment};

use layout::Geometry;
use model::Refusal;

// The stack of the free segments.
pub fn free_stack() -> usize
    ensures { result ≡ free_stack }
{
    0
}

// The stack of the part segments of a class.
pub fn part_stack(class: u32) -> usize
    requires { IsClass class }
    ensures { result ≡ part_stack class }
{
    1 + (class - classes::FIRST_CLASS) as usize
}

// Where stack t begins: its count, and then its entries.
fn base(g: Geometry, t: usize) -> usize
    requires { (g.segments ≤ max_segments) × (t < stack_count) }
    ensures { StackAt g t result }
{
    t * (1 + g.segments)
}

// The segment last put on stack t, if there is one.
pub fn top(g: Geometry, mem: &[u32], t: usize) -> Result<Option<usize>, Refusal>
    requires { (Sized g (length mem.now)) × (t < stack_count) }
    ensures { Tops g (mem_of g mem.now) t result }
{
    let at = base(g, t);
    let count = layout::stack(g, mem, at) as usize;
    if count == 0 {
        return Ok(None);
    }
    if g.segments < count {
        return Err(Refusal::Torn);
    }
    let s = layout::stack(g, mem, at + count) as usize;
    if s < g.segments {
        return Ok(Some(s));
    }
    Err(Refusal::Torn)
}

// Takes the segment last put on off stack t.
pub fn pop(g: Geometry, mem: &mut [u32], t: usize)
    requires { (Sized g (length mem.old)) × (t < stack_count) }
    ensures { mem_of g mem.new ≡ pop g (mem_of g mem.old) t }
{
    let at = base(g, t);
    let count = layout::stack(g, mem, at);
    if count == 0 {
        return;
    }
    layout::set_stack(g, mem, at, count - 1);
}

// Takes every segment off stack t.
pub fn empty(g: Geometry, mem: &mut [u32], t: usize)
    requires { (Sized g (length mem.old)) × (t < stack_count) }
    ensures { mem_of g mem.new ≡ emptied g (mem_of g mem.old) t }
{
    let at = base(g, t);
    layout::set_stack(g, mem, at, 0);
}

// Puts segment s on stack t; false where the stack has no room.
pub fn push(g: Geometry, mem: &mut [u32], t: usize, s: usize) -> bool
    requires { (Sized g (length mem.old)) × (t < stack_count) × (s < g.segments) }
    ensures { PushesSegment g (mem_of g mem.old) t s result (mem_of g mem.new) }
{
    let at = base(g, t);
    let count = layout::stack(g, mem, at);
    if g.segments <= count as usize {
        return false;
    }
    layout::set_stack(g, mem, at + 1 + count as usize, s as u32);
    layout::set_stack(g, mem, at, count + 1);
    true
}
