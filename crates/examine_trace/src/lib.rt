// The examination's part on the trace stack, over memory of any content: each entry is a record that passes the test, with its bit, none is there
// twice, and there are no more than bits. Entries are told apart by bits in a lent scratch.
#![tactic(auto)]

ghost use Rattle.std.specs.Prelude.{◌≡◌, ℕ, ◌*◌, ◌≤◌, ◌<◌, length};
ghost use Rattle.basics.specs.Decides.{Decides};
ghost use Rattle.words.specs.Bits.{bit_at};
ghost use Rattle.layout.specs.Geometry.{Sized, len, most_blocks};
ghost use Rattle.layout.specs.Mem.{mem_of};
ghost use Rattle.model.specs.Fields.{trace_count};
ghost use Rattle.examine_trace.specs.Traced.{BitEnters, Enters, EntersAll, Traced};
ghost use Rattle.layout.specs.Region as Region;

use layout::Geometry;

// Bit k of an entry: set, and new among the bits so far.
fn enter_bit(g: Geometry, mem: &[u32], k: usize, scratch: &mut [u32]) -> bool
    requires { (Sized g (length mem.now)) × (k < g.segments * most_blocks g) × (len g Region.marks ≤ length scratch.old) }
    ensures { BitEnters (mem_of g mem.now) k scratch.old result scratch.new }
{
    if !marks::is_set(g, mem, k) {
        return false;
    }
    let bit = k as u32;
    if words::bit_at(scratch, bit) == 1 {
        return false;
    }
    words::set_bit(scratch, bit);
    true
}

// Entry i of the trace stack entered among the bits; false where it is no record that passes the test, or its bit is 0 or not new.
fn enter(g: Geometry, mem: &[u32], i: usize, scratch: &mut [u32]) -> bool
    requires { (Sized g (length mem.now)) × (i < len g Region.trace) × (len g Region.marks ≤ length scratch.old) }
    ensures { Enters g (mem_of g mem.now) i scratch.old result scratch.new }
{
    let w = layout::trace(g, mem, i);
    if w == 0 {
        return false;
    }
    let Some(k) = examine_record::test(g, mem, (w - 1) as usize) else {
        return false;
    };
    enter_bit(g, mem, k, scratch)
}

// The n entries of the trace stack entered among the bits, one after the other; false where `enter` says so of one.
fn enter_all(g: Geometry, mem: &[u32], n: usize, scratch: &mut [u32]) -> bool
    requires sized { (Sized g (length mem.now)) × (n ≡ trace_count (mem_of g mem.now)) × (n ≤ len g Region.trace) }
    requires g_in_bounds { (len g Region.marks ≤ length scratch.old) × ((k : ℕ) → bit_at scratch.old k ≡ 0) }
    ensures { EntersAll g (mem_of g mem.now) result scratch.new }
{
    for i in 0..n {
        if !enter(g, mem, i, scratch) {
            return false;
        }
    }
    true
}

// Whether the trace stack is in order and its entries are records that pass the test. The scratch may hold anything.
pub fn trace_ok(g: Geometry, mem: &[u32], scratch: &mut [u32]) -> bool
    requires { (Sized g (length mem.now)) × (len g Region.marks ≤ length scratch.old) }
    ensures { Decides result (Traced g (mem_of g mem.now)) }
{
    let n = control::trace_count(g, mem);
    let ones = marks::count(g, mem);
    if ones < n {
        return false;
    }
    examine_search::clear_all(scratch);
    enter_all(g, mem, n as usize, scratch)
}
