// The words of the control by name: the phase, the number of entries on the trace stack, and the sweep's cursor. Of the heap's
// code this alone knows which word is which.
#![tactic(auto)]

ghost use Rattle.std.specs.Prelude.{◌≡◌, ◌≤◌, length};
ghost use Rattle.layout.specs.Geometry.{Sized};
ghost use Rattle.layout.specs.Mem.{mem_of, control_word};
ghost use Rattle.theory.specs.Phases.{sweep};
ghost use Rattle.model.specs.PhaseNumbers.{phase_of, phase_number};
ghost use Rattle.model.specs.Fields.{set_phase, trace_count, set_trace_count, cursor, set_cursor};

use layout::Geometry;
use model::Phase;

// Where each word stands.
const PHASE_AT: usize = 0;

const TRACE_COUNT_AT: usize = 1;

const CURSOR_AT: usize = 2;

// The phase, by whatever number its word holds.
pub fn phase(g: Geometry, mem: &[u32]) -> Phase
    requires { Sized g (length mem.now) }
    ensures { result.number ≡ control_word (mem_of g mem.now) 0 }
{
    Phase {
        number: layout::control(g, mem, PHASE_AT),
    }
}

// The phase becomes that of a number, one of the five.
pub fn set_phase(g: Geometry, mem: &mut [u32], number: u32)
    requires { (Sized g (length mem.old)) × (number ≤ phase_number sweep) }
    ensures { mem_of g mem.new ≡ set_phase (mem_of g mem.old) (phase_of number) }
{
    layout::set_control(g, mem, PHASE_AT, number);
}

// How many entries the trace stack has.
pub fn trace_count(g: Geometry, mem: &[u32]) -> u32
    requires { Sized g (length mem.now) }
    ensures { result ≡ trace_count (mem_of g mem.now) }
{
    layout::control(g, mem, TRACE_COUNT_AT)
}

pub fn set_trace_count(g: Geometry, mem: &mut [u32], n: u32)
    requires { Sized g (length mem.old) }
    ensures { mem_of g mem.new ≡ set_trace_count (mem_of g mem.old) n }
{
    layout::set_control(g, mem, TRACE_COUNT_AT, n);
}

// The sweep's cursor: the segment that the sweep looks at next.
pub fn cursor(g: Geometry, mem: &[u32]) -> u32
    requires { Sized g (length mem.now) }
    ensures { result ≡ cursor (mem_of g mem.now) }
{
    layout::control(g, mem, CURSOR_AT)
}

pub fn set_cursor(g: Geometry, mem: &mut [u32], s: u32)
    requires { Sized g (length mem.old) }
    ensures { mem_of g mem.new ≡ set_cursor (mem_of g mem.old) s }
{
    layout::set_control(g, mem, CURSOR_AT, s);
}
