// The examination's second half, decided both ways over memory of any content: `Sound`, from the parts of segments and mutators, the trace stack, what
// is live, and what the phase asks. The scratch may hold anything, and ends all zero.
#![tactic(auto)]

ghost use Rattle.std.specs.Prelude.{◌≡◌, ℕ, ◌≤◌, length, replicate};
ghost use Rattle.basics.specs.Decides.{Decides};
ghost use Rattle.layout.specs.Geometry.{Sized, scratch_words};
ghost use Rattle.layout.specs.Mem.{mem_of, control_word};
ghost use Rattle.theory.specs.Phases.{sweep};
ghost use Rattle.model.specs.PhaseNumbers.{phase_number};
ghost use Rattle.model.specs.Fields.{phase};
ghost use Rattle.model.specs.Consistent.{Sound};
ghost use Rattle.examine_parts.specs.Parts.{Parts};
ghost use Rattle.examine_trace.specs.Traced.{Traced};
ghost use Rattle.examine_marks.specs.Heads.{Classes};
ghost use Rattle.examine_sound.specs.Cycle.{Rest, IdleRest, SyncRest, MarkRest, SweepRest};

use layout::Geometry;
use model::Phase;

// In idle: nothing on the trace stack, no segment in the collect set, and what is live passes the test.
fn idle_ok(g: Geometry, mem: &[u32], scratch: &mut [u32]) -> bool
    requires { (Sized g (length mem.now)) × (length scratch.old ≡ scratch_words g) }
    ensures { Decides result (IdleRest g (mem_of g mem.now)) }
{
    if control::trace_count(g, mem) != 0 {
        return false;
    }
    if !examine_parts::none_condemned(g, mem) {
        return false;
    }
    examine_colours::live_ok(g, mem, scratch)
}

// In handshake 1: bits among the marks of entries of the trace stack only, and what is live passes the test.
fn sync_ok(g: Geometry, mem: &[u32], scratch: &mut [u32]) -> bool
    requires { (Sized g (length mem.now)) × (length scratch.old ≡ scratch_words g) × Traced g (mem_of g mem.now) }
    ensures { Decides result (SyncRest g (mem_of g mem.now)) }
{
    examine_marks::only_entries(g, mem) && examine_colours::live_ok(g, mem, scratch)
}

// In handshake 2 and in mark: marks of blocks in use only, and the tricolour invariant.
fn mark_ok(g: Geometry, mem: &[u32], scratch: &mut [u32]) -> bool
    requires { (Sized g (length mem.now)) × (length scratch.old ≡ scratch_words g) × Classes g (mem_of g mem.now) }
    ensures { Decides result (MarkRest g (mem_of g mem.now)) }
{
    examine_marks::marks(g, mem, false) && examine_colours::tricolour(g, mem, scratch)
}

// In sweep: nothing on the trace stack, marks in the collect set of blocks in use only, and what is reached there is marked.
fn sweep_ok(g: Geometry, mem: &[u32], scratch: &mut [u32]) -> bool
    requires { (Sized g (length mem.now)) × (length scratch.old ≡ scratch_words g) × Classes g (mem_of g mem.now) }
    ensures { Decides result (SweepRest g (mem_of g mem.now)) }
{
    if control::trace_count(g, mem) != 0 {
        return false;
    }
    examine_marks::marks(g, mem, true) && examine_colours::swept(g, mem, scratch)
}

// What the phase asks, and that what is live passes the test.
fn rest_ok(g: Geometry, mem: &[u32], scratch: &mut [u32]) -> bool
    requires { (Sized g (length mem.now)) × (length scratch.old ≡ scratch_words g) × Classes g (mem_of g mem.now) × (control_word (mem_of g mem.now) 0 ≤ phase_number sweep) × Traced g (mem_of g mem.now) }
    ensures { Decides result (Rest (phase (mem_of g mem.now)) g (mem_of g mem.now)) }
{
    let phase = control::phase(g, mem);
    let number = phase.number;
    if number == Phase::IDLE {
        return idle_ok(g, mem, scratch);
    }
    if number == Phase::SYNC1 {
        return sync_ok(g, mem, scratch);
    }
    if number < Phase::SWEEP {
        return mark_ok(g, mem, scratch);
    }
    sweep_ok(g, mem, scratch)
}

// Whether the memory is sound: the parts, the trace stack, then what the phase asks.
fn all_ok(g: Geometry, mem: &[u32], scratch: &mut [u32]) -> bool
    requires { (Sized g (length mem.now)) × (length scratch.old ≡ scratch_words g) }
    ensures { Decides result (Sound g (mem_of g mem.now)) }
{
    if !examine_parts::parts(g, mem) {
        return false;
    }
    if !examine_trace::trace_ok(g, mem, scratch) {
        return false;
    }
    rest_ok(g, mem, scratch)
}

// Whether the memory is sound; the scratch ends all zero.
pub fn sound(g: Geometry, mem: &[u32], scratch: &mut [u32]) -> bool
    requires { (Sized g (length mem.now)) × (length scratch.old ≡ scratch_words g) }
    ensures { Decides result (Sound g (mem_of g mem.now)) × (scratch.new ≡ replicate (scratch_words g) 0) }
{
    let ok = all_ok(g, mem, scratch);
    examine_search::clear_all(scratch);
    ok
}
