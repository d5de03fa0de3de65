// Two looks: the phase, and the states of the segments. They change no word of the memory, have no `requires` and keep the model's promises of them.
// Every record is tested before the first word is written: refused, the look at the states leaves the output unchanged.
#![tactic(auto)]

ghost use Rattle.std.specs.Prelude.{◌≡◌, ℕ, ◌≤◌, ◌<◌, length};
ghost use Rattle.basics.specs.Decides.{Decides};
ghost use Rattle.layout.specs.Geometry.{Sized, len, max_segments};
ghost use Rattle.layout.specs.Mem.{mem_of};
ghost use Rattle.model.specs.Promise.{PhasePromise, StatesPromise};
ghost use Rattle.looks.specs.Plausible.{Plausible};
ghost use Rattle.layout.specs.Region as Region;

use layout::Geometry;
use model::{Answer, Phase, Refusal, Segment};

// The phase's number.
pub fn phase(g: Geometry, mem: &[u32]) -> Result<u32, Refusal>
    ensures { PhasePromise g mem.now result }
{
    model::require_size(g, mem)?;
    let phase = control::phase(g, mem);
    let number = phase.number;
    if Phase::SWEEP < number {
        return Err(Refusal::Torn);
    }
    Ok(number)
}

// The length of the output of the look at the states: the words of the segment records.
pub fn states_words(g: Geometry) -> usize
    requires { g.segments ≤ max_segments }
    ensures { result ≡ len g Region.segments }
{
    g.segments * layout::SEGMENT_RECORD_WORDS
}

// Whether the record of segment s can be one of consistent memory.
#[tactic(auto, using(crate::proofs::Looking::by_class))]
pub fn record_ok(g: Geometry, mem: &[u32], s: usize) -> bool
    requires { (Sized g (length mem.now)) × (s < g.segments) }
    ensures { Decides result (Plausible (mem_of g mem.now) s) }
{
    let tag = segments::tag(g, mem, s);
    tag <= Segment::TAG_CONDEMNED
        && (tag == Segment::TAG_FREE || classes::is_class(segments::class(g, mem, s)))
}

// Whether the record of every segment can be one of consistent memory.
fn records_ok(g: Geometry, mem: &[u32]) -> bool
    requires { Sized g (length mem.now) }
    ensures { Decides result ((s : ℕ) → s < g.segments → Plausible (mem_of g mem.now) s) }
{
    (0..g.segments).all(|s| record_ok(g, mem, s))
}

// The words of the segment records, copied.
fn copy(g: Geometry, mem: &[u32], output: &mut [u32])
    requires { (Sized g (length mem.now)) × (length output.old ≡ len g Region.segments) }
    ensures { output.new ≡ (mem_of g mem.now).segments }
{
    for (i, word) in output.iter_mut().enumerate() {
        *word = layout::segment(g, mem, i);
    }
}

// The states of the segments: the words of their records, into an output of that length.
pub fn states(g: Geometry, mem: &[u32], output: &mut [u32]) -> Result<Answer, Refusal>
    ensures { StatesPromise g mem.now output.old result output.new }
{
    model::require_size(g, mem)?;
    if output.len() != states_words(g) {
        return Err(Refusal::Size);
    }
    if !records_ok(g, mem) {
        return Err(Refusal::Torn);
    }
    copy(g, mem, output);
    Ok(Answer::Done)
}
