// Answers in numbers, as C takes them: the lower 32 bits are 0 or the number of a refusal, the upper 32 bits the value that a call answers. `unpack` and its like in
// specs/ say which answer a number stands for; proofs/ has that an answer which keeps a call's promise is unpacked to itself.
#![tactic(auto)]

ghost use Rattle.std.specs.Prelude.{◌≡◌};
ghost use Rattle.packing.specs.Packed.{geometry_of, no_size, pack, pack_value, pack_step, pack_phase, pack_examined};

use layout::Geometry;
use model::{Answer, Refusal, Step};

// The lowest of the upper 32 bits.
const UPPER: u64 = 4294967296;

pub fn geometry(segments: u32, kib: u32) -> Geometry
    ensures { result ≡ geometry_of segments kib }
{
    Geometry {
        segments: segments as usize,
        kib,
    }
}

// 0, or the number of the refusal.
pub fn packed(a: Result<Answer, Refusal>) -> u32
    ensures { result ≡ pack a }
{
    match a {
        Ok(_) => 0,
        Err(e) => e.number(),
    }
}

// The value in the upper 32 bits, or the number of the refusal.
pub fn packed_value(a: Result<Answer, Refusal>) -> u64
    ensures { result ≡ pack_value a }
{
    match a {
        Ok(Answer::Done) => 0,
        Ok(Answer::Number(v)) => v as u64 * UPPER,
        Ok(Answer::Same(b)) => { if b { UPPER } else { 0 } }
        Ok(Answer::Shape(s)) => {
            let p = s.pointer_count % records::HALF_WORD;
            let n = s.value_count % records::HALF_WORD;
            (p * records::HALF_WORD + n) as u64 * UPPER
        }
        Err(e) => e.number() as u64,
    }
}

// Which answer of step it is, with its numbers, in the upper 32 bits, or the number of the refusal.
pub fn packed_step(a: Step) -> u64
    ensures { result ≡ pack_step a }
{
    match a {
        Step::Idle => 0,
        Step::Waiting(n) => (1 + n as u64 % 256 * 256) * UPPER,
        Step::Moved => 2 * UPPER,
        Step::Traced => 3 * UPPER,
        Step::Swept(s, freed) => (4 + s as u64 % 256 * 256 + freed as u64 % 65536 * 65536) * UPPER,
        Step::Done => 5 * UPPER,
        Step::Refused(n) => n as u64,
    }
}

// The phase's number in the upper 32 bits, or the number of the refusal.
pub fn packed_phase(a: Result<u32, Refusal>) -> u64
    ensures { result ≡ pack_phase a }
{
    match a {
        Ok(p) => p as u64 * UPPER,
        Err(e) => e.number() as u64,
    }
}

// 1 in the upper 32 bits where the examination says yes, or the number of the refusal.
pub fn packed_examined(a: Result<bool, Refusal>) -> u64
    ensures { result ≡ pack_examined a }
{
    match a {
        Ok(true) => UPPER,
        Ok(false) => 0,
        Err(e) => e.number() as u64,
    }
}

// Whether a count of segments or a size in KiB is none.
pub fn no_size(segments: u32, kib: u32) -> bool
    ensures { result ≡ no_size segments kib }
{
    if segments < 1 {
        return true;
    }
    if layout::MAX_SEGMENTS < segments as usize {
        return true;
    }
    layout::no_kib(kib)
}
