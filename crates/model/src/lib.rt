// The declared types of the heap: what a root or pointer holds, a segment's state, the answers, and the phases with their rules.
// The definitions that every call is held to stand in specs/.
#![tactic(auto)]

ghost use Rattle.std.specs.Prelude.{◌≡◌, length, Ok, Err};
ghost use Rattle.basics.specs.Pick.{pick};
ghost use Rattle.layout.specs.Geometry.{wrong_size};
ghost use Rattle.model.specs.declared.Refusal.TheVariants.{Size};
ghost use Rattle.theory.specs.Phases.{duty, owes, black, in_handshake, newcomer};
ghost use Rattle.model.specs.Refusals.{number_of};
ghost use Rattle.model.specs.PhaseNumbers.{phase_of, duty_of};

use classes::RecordShape;
use layout::Geometry;

// What a root or a pointer field holds: nil, or a record by the index of its header word in the heap.
#[derive(Drop)]
pub enum Held {
    Nil,
    Record(usize),
}

// The state of a segment (document 01: free, part, held, full, condemned).
#[derive(Drop)]
pub enum SegmentState {
    Free,
    Part {
        class: u32,
        place: u32,
    },
    Held {
        class: u32,
        place: u32,
        mutator: u32,
    },
    Full {
        class: u32,
    },
    Condemned {
        class: u32,
        place: u32,
    },
}

// A segment's record: its state, the blocks kept at its last sweep, and the blocks handed out since.
#[derive(Drop)]
pub struct Segment {
    pub state: SegmentState,
    pub kept: u32,
    pub handed: u32,
}

// The tags of the states in the words of a record.
impl Segment {
    pub const TAG_FREE: u32 = 0;

    pub const TAG_PART: u32 = 1;

    pub const TAG_HELD: u32 = 2;

    pub const TAG_FULL: u32 = 3;

    pub const TAG_CONDEMNED: u32 = 4;
}

// Why a call is refused: the words of document 01's table, by its numbers. Request No. 1: "Refusal 12 never occurs any more": no call gives NoneFull.
#[derive(Clone, Copy)]
pub enum Refusal {
    Size = 1,
    Mutator = 2,
    Taken = 3,
    Absent = 4,
    Side = 5,
    Root = 6,
    Nil = 7,
    Field = 8,
    TooBig = 9,
    NoRoom = 10,
    NotNow = 11,
    NoneFull = 12,
    Torn = 13,
}

impl Refusal {
    // Its number in the table.
    pub fn number(self) -> u32
        ensures { result ≡ number_of self }
    {
        self as u32
    }
}

// Refuses where the count of segments, their size or the slice's length is wrong.
pub fn require_size(g: Geometry, mem: &[u32]) -> Result<(), Refusal>
    ensures { result ≡ pick (wrong_size g (length mem.now)) (Err Size) (Ok tt) }
{
    if layout::wrong_size(g, mem.len()) {
        return Err(Refusal::Size);
    }
    Ok(())
}

// The answer of a mutator's call, of an opening and of start that is not refused.
#[derive(Drop)]
pub enum Answer {
    Done,
    Number(u32),
    Same(bool),
    Shape(RecordShape),
}

// The answer of step.
#[derive(Drop)]
pub enum Step {
    Waiting(u32),
    Moved,
    Traced,
    Swept(u32, u32),
    Done,
    Idle,
    Refused(u32),
}

// What a store pushes on the trace stack: nothing, the new value and then the old, or the old value.
#[derive(Drop)]
pub enum Duty {
    Nothing,
    Both,
    Old,
}

// The phase of the cycle, by its number.
#[derive(Clone, Copy)]
pub struct Phase {
    pub number: u32,
}

impl Phase {
    pub const IDLE: u32 = 0;

    pub const SYNC1: u32 = 1;

    pub const SYNC2: u32 = 2;

    pub const MARK: u32 = 3;

    pub const SWEEP: u32 = 4;

    // The write barrier's duty of a mutator with so many acknowledgements.
    pub fn duty(self, acks: u32) -> Duty
        ensures { result ≡ duty_of (duty (phase_of self.number) acks) }
    {
        let p = self.number;
        if p == Self::MARK {
            return Duty::Old;
        }
        if p < Self::SYNC1 {
            return Duty::Nothing;
        }
        if Self::SYNC2 < p {
            return Duty::Nothing;
        }
        if acks == 0 {
            return Duty::Nothing;
        }
        Duty::Both
    }

    // Whether a mutator with so many acknowledgements owes one.
    pub fn owes(self, acks: u32) -> bool
        ensures { result ≡ owes (phase_of self.number) acks }
    {
        let p = self.number;
        if p == Self::SYNC1 {
            return acks == 0;
        }
        if p == Self::SYNC2 {
            return acks < 2;
        }
        false
    }

    // Whether a block made by a mutator with so many acknowledgements is marked from the start.
    pub fn black(self, acks: u32) -> bool
        ensures { result ≡ black (phase_of self.number) acks }
    {
        let p = self.number;
        if p < Self::SYNC2 {
            return false;
        }
        if Self::MARK < p {
            return false;
        }
        2 <= acks
    }

    // Whether the phase is one of the two handshakes.
    pub fn in_handshake(self) -> bool
        ensures { result ≡ in_handshake (phase_of self.number) }
    {
        let p = self.number;
        if p == Self::SYNC1 {
            return true;
        }
        p == Self::SYNC2
    }

    // The acknowledgements that a mutator attached in it counts as having given.
    pub fn newcomer(self) -> u32
        ensures { result ≡ newcomer (phase_of self.number) }
    {
        let p = self.number;
        if p == Self::MARK {
            return 2;
        }
        0
    }
}
