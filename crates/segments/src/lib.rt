// Segment records in the lent slice: read whole; a segment's state written to the words of its record, its two counts, and single words.
#![tactic(auto)]

ghost use Rattle.std.specs.Prelude.{◌≡◌, ◌+◌, ◌*◌, ◌<◌, length};
ghost use Rattle.layout.specs.Geometry.{Sized, blocks_in, segment_record_words};
ghost use Rattle.layout.specs.Mem.{mem_of, segment_record_word, set_segment};
ghost use Rattle.model.specs.Fields.{tag, set_tag, class, place, set_place, owner, kept_count, set_kept_count, handed_count, set_handed_count};
ghost use Rattle.model.specs.Segments.{segment, set_segment_state, set_record};

use layout::Geometry;
use model::{Segment, SegmentState};

// A word of the record of segment s, by its place in the record.
fn field(g: Geometry, mem: &[u32], s: usize, at: usize) -> u32
    requires { (Sized g (length mem.now)) × (s < g.segments) × (at < segment_record_words) }
    ensures { result ≡ segment_record_word (mem_of g mem.now) (s * segment_record_words + at) }
{
    layout::segment(g, mem, s * layout::SEGMENT_RECORD_WORDS + at)
}

fn set_field(g: Geometry, mem: &mut [u32], s: usize, at: usize, v: u32)
    requires { (Sized g (length mem.old)) × (s < g.segments) × (at < segment_record_words) }
    ensures { mem_of g mem.new ≡ set_segment (mem_of g mem.old) (s * segment_record_words + at) v }
{
    layout::set_segment(g, mem, s * layout::SEGMENT_RECORD_WORDS + at, v);
}

// The tag of segment s.
pub fn tag(g: Geometry, mem: &[u32], s: usize) -> u32
    requires { (Sized g (length mem.now)) × (s < g.segments) }
    ensures { result ≡ tag (mem_of g mem.now) s }
{
    field(g, mem, s, layout::TAG_AT)
}

pub fn set_tag(g: Geometry, mem: &mut [u32], s: usize, v: u32)
    requires { (Sized g (length mem.old)) × (s < g.segments) }
    ensures { mem_of g mem.new ≡ set_tag (mem_of g mem.old) s v }
{
    set_field(g, mem, s, layout::TAG_AT, v);
}

// The class of segment s.
pub fn class(g: Geometry, mem: &[u32], s: usize) -> u32
    requires { (Sized g (length mem.now)) × (s < g.segments) }
    ensures { result ≡ class (mem_of g mem.now) s }
{
    field(g, mem, s, layout::CLASS_AT)
}

// The allocation pointer of segment s (document 01: place).
pub fn place(g: Geometry, mem: &[u32], s: usize) -> u32
    requires { (Sized g (length mem.now)) × (s < g.segments) }
    ensures { result ≡ place (mem_of g mem.now) s }
{
    field(g, mem, s, layout::PLACE_AT)
}

pub fn set_place(g: Geometry, mem: &mut [u32], s: usize, v: u32)
    requires { (Sized g (length mem.old)) × (s < g.segments) }
    ensures { mem_of g mem.new ≡ set_place (mem_of g mem.old) s v }
{
    set_field(g, mem, s, layout::PLACE_AT, v);
}

// The mutator that holds segment s.
pub fn owner(g: Geometry, mem: &[u32], s: usize) -> u32
    requires { (Sized g (length mem.now)) × (s < g.segments) }
    ensures { result ≡ owner (mem_of g mem.now) s }
{
    field(g, mem, s, layout::OWNER_AT)
}

// The blocks of segment s that were kept at its last sweep.
pub fn kept(g: Geometry, mem: &[u32], s: usize) -> u32
    requires { (Sized g (length mem.now)) × (s < g.segments) }
    ensures { result ≡ kept_count (mem_of g mem.now) s }
{
    field(g, mem, s, layout::KEPT_AT)
}

// The blocks of segment s that were handed out since.
pub fn handed(g: Geometry, mem: &[u32], s: usize) -> u32
    requires { (Sized g (length mem.now)) × (s < g.segments) }
    ensures { result ≡ handed_count (mem_of g mem.now) s }
{
    field(g, mem, s, layout::HANDED_AT)
}

pub fn set_handed(g: Geometry, mem: &mut [u32], s: usize, v: u32)
    requires { (Sized g (length mem.old)) × (s < g.segments) }
    ensures { mem_of g mem.new ≡ set_handed_count (mem_of g mem.old) s v }
{
    set_field(g, mem, s, layout::HANDED_AT, v);
}

// The two counts of segment s written.
pub fn write_counts(g: Geometry, mem: &mut [u32], s: usize, kept: u32, handed: u32)
    requires { (Sized g (length mem.old)) × (s < g.segments) }
    ensures { mem_of g mem.new ≡ set_handed_count (set_kept_count (mem_of g mem.old) s kept) s handed }
{
    set_field(g, mem, s, layout::KEPT_AT, kept);
    set_handed(g, mem, s, handed);
}

// The record of segment s, whatever its words hold.
pub fn read(g: Geometry, mem: &[u32], s: usize) -> Segment
    requires { (Sized g (length mem.now)) × (s < g.segments) }
    ensures { (result.state ≡ segment (mem_of g mem.now) s) × (result.kept ≡ kept_count (mem_of g mem.now) s) × (result.handed ≡ handed_count (mem_of g mem.now) s) }
{
    let class = class(g, mem, s);
    let place = place(g, mem, s);
    let mutator = owner(g, mem, s);
    let kept = kept(g, mem, s);
    let handed = handed(g, mem, s);
    let state = match tag(g, mem, s) {
        Segment::TAG_FREE => SegmentState::Free,
        Segment::TAG_PART => SegmentState::Part { class, place },
        Segment::TAG_HELD => SegmentState::Held {
            class,
            place,
            mutator,
        },
        Segment::TAG_FULL => SegmentState::Full { class },
        _ => SegmentState::Condemned { class, place },
    };
    Segment {
        state,
        kept,
        handed,
    }
}

// The words of a state.
fn write_as(g: Geometry, mem: &mut [u32], s: usize, tag: u32, class: u32, place: u32, owner: u32)
    requires { (Sized g (length mem.old)) × (s < g.segments) }
    ensures { mem_of g mem.new ≡ set_record (mem_of g mem.old) s tag class place owner }
{
    let at = s * layout::SEGMENT_RECORD_WORDS;
    layout::set_segment(g, mem, at + layout::TAG_AT, tag);
    layout::set_segment(g, mem, at + layout::CLASS_AT, class);
    layout::set_segment(g, mem, at + layout::PLACE_AT, place);
    layout::set_segment(g, mem, at + layout::OWNER_AT, owner);
}

// The words of a state whose allocation pointer is the number of blocks.
fn write_filled(g: Geometry, mem: &mut [u32], s: usize, tag: u32, class: u32)
    requires { (Sized g (length mem.old)) × (s < g.segments) }
    ensures { mem_of g mem.new ≡ set_record (mem_of g mem.old) s tag class (blocks_in g class) 0 }
{
    write_as(g, mem, s, tag, class, layout::blocks_in(g, class), 0);
}

// The state of segment s written; what it has not is 0, and the two counts stay.
pub fn write(g: Geometry, mem: &mut [u32], s: usize, state: SegmentState)
    requires { (Sized g (length mem.old)) × (s < g.segments) }
    ensures { mem_of g mem.new ≡ set_segment_state g (mem_of g mem.old) s state }
{
    match state {
        SegmentState::Free => write_as(g, mem, s, Segment::TAG_FREE, 0, 0, 0),
        SegmentState::Part { class, place } => write_as(
            g,
            mem,
            s,
            Segment::TAG_PART,
            class,
            place,
            0,
        ),
        SegmentState::Held {
            class,
            place,
            mutator,
        } => write_as(g, mem, s, Segment::TAG_HELD, class, place, mutator),
        SegmentState::Full { class } => write_filled(g, mem, s, Segment::TAG_FULL, class),
        SegmentState::Condemned { class, place } => write_as(
            g,
            mem,
            s,
            Segment::TAG_CONDEMNED,
            class,
            place,
            0,
        ),
    }
}
