// The part of the examination's second half that needs no scratch, decided both ways over memory of any content: segment records, mutators' entries,
// acknowledgements and the phase's number.
#![tactic(auto)]

ghost use Rattle.std.specs.Prelude.{◌≡◌, ℕ, ◌+◌, ◌*◌, ◌≤◌, ◌<◌, length};
ghost use Rattle.basics.specs.Decides.{Decides};
ghost use Rattle.classes.specs.Class.{IsClass, first_class, class_count};
ghost use Rattle.layout.specs.Geometry.{Sized, mutator_count};
ghost use Rattle.layout.specs.Mem.{mem_of};
ghost use Rattle.model.specs.PhaseNumbers.{phase_of};
ghost use Rattle.model.specs.Fields.{tag};
ghost use Rattle.model.specs.Tag as Tag;
ghost use Rattle.model.specs.Consistent.{AcksIn, Behind};
ghost use Rattle.examine_parts.specs.Parts.{Parts, Cleared, Open, Owned, Used, SegmentParts, Gone, HeldBy, Holds, Entry, Acknowledged, MutatorParts};

use layout::Geometry;
use model::{Phase, Segment};

// Whether the words that a free segment does not use are 0.
fn cleared(g: Geometry, mem: &[u32], s: usize) -> bool
    requires { (Sized g (length mem.now)) × (s < g.segments) }
    ensures { Decides result (Cleared (mem_of g mem.now) s) }
{
    segments::class(g, mem, s) == 0
        && segments::place(g, mem, s) == 0
        && segments::owner(g, mem, s) == 0
}

// Whether a block at or after the allocation pointer is free, and a block is in use: one count tells both.
fn open(g: Geometry, mem: &[u32], s: usize, class: u32) -> bool
    requires sized { (Sized g (length mem.now)) × (s < g.segments) }
    requires class { IsClass class }
    ensures { Decides result (Open g (mem_of g mem.now) s class) }
{
    let used = bitmaps::in_use(g, mem, s, class, segments::place(g, mem, s));
    used != 0 && used != layout::blocks_in(g, class)
}

// Whether the mutator of the record holds the segment.
fn owned(g: Geometry, mem: &[u32], s: usize, class: u32) -> bool
    requires sized { (Sized g (length mem.now)) × (s < g.segments) }
    requires class { IsClass class }
    ensures { Decides result (Owned (mem_of g mem.now) s class) }
{
    let k = segments::owner(g, mem, s);
    k < layout::MUTATORS
        && mutators::state(g, mem, k) != mutators::ABSENT
        && mutators::holding(g, mem, k, class) as usize == s + 1
}

// Whether a segment that is not held has no mutator, and a part one a free block and one in use, a full one its allocation pointer at the end, and
// a condemned one it not past that.
fn unheld(g: Geometry, mem: &[u32], s: usize, tag: u32, class: u32) -> bool
    requires sized { (Sized g (length mem.now)) × (s < g.segments) }
    requires class { IsClass class }
    requires le_tag { (Tag.part ≤ tag) × (tag ≡ Tag.held → ⊥) }
    ensures { Decides result (Used g (mem_of g mem.now) s tag class) }
{
    if segments::owner(g, mem, s) != 0 {
        return false;
    }
    match tag {
        Segment::TAG_PART => open(g, mem, s, class),
        Segment::TAG_FULL => segments::place(g, mem, s) == layout::blocks_in(g, class),
        _ => segments::place(g, mem, s) <= layout::blocks_in(g, class),
    }
}

// Whether a segment that is not free is as its tag asks; a held one has its mutator, a free block and one in use.
fn used(g: Geometry, mem: &[u32], s: usize, tag: u32, class: u32) -> bool
    requires sized { (Sized g (length mem.now)) × (s < g.segments) }
    requires class { IsClass class }
    requires le_tag { Tag.part ≤ tag }
    ensures { Decides result (Used g (mem_of g mem.now) s tag class) }
{
    if tag != Segment::TAG_HELD {
        return unheld(g, mem, s, tag, class);
    }
    owned(g, mem, s, class) && open(g, mem, s, class)
}

// Whether segment s is as its record asks.
fn segment(g: Geometry, mem: &[u32], s: usize) -> bool
    requires { (Sized g (length mem.now)) × (s < g.segments) }
    ensures { Decides result (SegmentParts g (mem_of g mem.now) s) }
{
    let tag = segments::tag(g, mem, s);
    if tag == Segment::TAG_FREE {
        return cleared(g, mem, s);
    }
    if Segment::TAG_CONDEMNED < tag {
        return false;
    }
    let class = segments::class(g, mem, s);
    classes::is_class(class) && used(g, mem, s, tag, class)
}

// Whether every segment is as its record asks.
fn segments(g: Geometry, mem: &[u32]) -> bool
    requires { Sized g (length mem.now) }
    ensures { Decides result ((s : ℕ) → s < g.segments → SegmentParts g (mem_of g mem.now) s) }
{
    (0..g.segments).all(|s| segment(g, mem, s))
}

// Whether the words of mutator k's entry are 0.
fn gone(g: Geometry, mem: &[u32], k: u32) -> bool
    requires { (Sized g (length mem.now)) × (k < mutator_count) }
    ensures { Decides result (Gone (mem_of g mem.now) k) }
{
    let at = k as usize * layout::MUTATOR_WORDS;
    (0..layout::ENTRY_WORDS).all(|i| layout::mutator(g, mem, at + i) == 0)
}

// Whether segment s is held by mutator k, with a class.
fn held_by(g: Geometry, mem: &[u32], k: u32, class: u32, s: usize) -> bool
    requires { Sized g (length mem.now) }
    ensures { Decides result (HeldBy g (mem_of g mem.now) k class s) }
{
    s < g.segments
        && segments::tag(g, mem, s) == Segment::TAG_HELD
        && segments::class(g, mem, s) == class
        && segments::owner(g, mem, s) == k
}

// Whether what mutator k holds of a class is held by it.
fn holds(g: Geometry, mem: &[u32], k: u32, class: u32) -> bool
    requires sized { (Sized g (length mem.now)) × (k < mutator_count) }
    requires class { IsClass class }
    ensures { Decides result (Holds g (mem_of g mem.now) k class) }
{
    let holding = mutators::holding(g, mem, k, class) as usize;
    holding == 0 || held_by(g, mem, k, class, holding - 1)
}

// Whether what mutator k holds is held by it, of every class.
fn holdings(g: Geometry, mem: &[u32], k: u32) -> bool
    requires { (Sized g (length mem.now)) × (k < mutator_count) }
    ensures { Decides result ((c : ℕ) → c < first_class + class_count → first_class ≤ c → Holds g (mem_of g mem.now) k c) }
{
    (classes::FIRST_CLASS..classes::FIRST_CLASS + classes::CLASS_COUNT).all(|class| holds(
        g, mem, k, class,
    ))
}

// Whether so many acknowledgements are those of a phase.
fn acks_in(p: u32, acks: u32) -> bool
    ensures { Decides result (AcksIn (phase_of p) acks) }
{
    match p {
        Phase::SYNC1 => acks <= 1,
        Phase::SYNC2 => 1 <= acks,
        Phase::MARK => 2 <= acks,
        _ => true,
    }
}

// Whether mutator k's acknowledgements are those of the phase, where it is attached.
fn acknowledged(g: Geometry, mem: &[u32], k: u32) -> bool
    requires { (Sized g (length mem.now)) × (k < mutator_count) }
    ensures { Decides result (Acknowledged (mem_of g mem.now) k) }
{
    mutators::state(g, mem, k) == mutators::ABSENT
        || acks_in(control::phase(g, mem).number, mutators::acks(g, mem, k))
}

// Whether the words of mutator k's entry are in range, and 0 where it is absent.
fn entry(g: Geometry, mem: &[u32], k: u32) -> bool
    requires { (Sized g (length mem.now)) × (k < mutator_count) }
    ensures { Decides result (Entry (mem_of g mem.now) k) }
{
    let state = mutators::state(g, mem, k);
    if mutators::OUTSIDE < state || 2 < mutators::acks(g, mem, k) {
        return false;
    }
    state != mutators::ABSENT || gone(g, mem, k)
}

// Whether mutator k's entry is in order.
fn mutator(g: Geometry, mem: &[u32], k: u32) -> bool
    requires { (Sized g (length mem.now)) × (k < mutator_count) }
    ensures { Decides result (MutatorParts g (mem_of g mem.now) k) }
{
    entry(g, mem, k) && holdings(g, mem, k) && acknowledged(g, mem, k)
}

// Whether every mutator's entry is in order.
fn mutators(g: Geometry, mem: &[u32]) -> bool
    requires { Sized g (length mem.now) }
    ensures { Decides result ((k : ℕ) → k < mutator_count → MutatorParts g (mem_of g mem.now) k) }
{
    (0..layout::MUTATORS).all(|k| mutator(g, mem, k))
}

// Whether none of the first n segments is condemned.
fn none_before(g: Geometry, mem: &[u32], n: usize) -> bool
    requires { (Sized g (length mem.now)) × (n ≤ g.segments) }
    ensures { Decides result ((s : ℕ) → s < n → tag (mem_of g mem.now) s ≡ Tag.condemned → ⊥) }
{
    (0..n).all(|s| segments::tag(g, mem, s) != Segment::TAG_CONDEMNED)
}

// Whether no condemned segment stands before the sweep's cursor.
fn behind(g: Geometry, mem: &[u32]) -> bool
    requires { Sized g (length mem.now) }
    ensures { Decides result (Behind g (mem_of g mem.now)) }
{
    let cursor = control::cursor(g, mem) as usize;
    none_before(g, mem, cursor.min(g.segments))
}

// Whether the phase, the segments, the sweep's cursor and the mutators are in order.
pub fn parts(g: Geometry, mem: &[u32]) -> bool
    requires { Sized g (length mem.now) }
    ensures { Decides result (Parts g (mem_of g mem.now)) }
{
    if Phase::SWEEP < control::phase(g, mem).number {
        return false;
    }
    segments(g, mem) && behind(g, mem) && mutators(g, mem)
}

// Whether no segment is condemned.
pub fn none_condemned(g: Geometry, mem: &[u32]) -> bool
    requires { Sized g (length mem.now) }
    ensures { Decides result ((s : ℕ) → s < g.segments → tag (mem_of g mem.now) s ≡ Tag.condemned → ⊥) }
{
    none_before(g, mem, g.segments)
}
