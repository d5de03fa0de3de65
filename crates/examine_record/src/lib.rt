// The test of a record: whether a word of the heap is the head of a block in use that holds a record of its segment's class. Memory may have any
// content; the answer decides `RecordOk`, and with it comes the record's bit.
#![tactic(auto)]

ghost use Rattle.std.specs.Prelude.{◌≡◌, ◌<◌, length, eqb, Some};
ghost use Rattle.basics.specs.Decides.{Decides};
ghost use Rattle.classes.specs.Class.{IsClass};
ghost use Rattle.classes.specs.Record.{class_of_record};
ghost use Rattle.layout.specs.Geometry.{Sized, len, segment_of, most_blocks};
ghost use Rattle.layout.specs.Mem.{mem_of};
ghost use Rattle.model.specs.Segments.{used_bit};
ghost use Rattle.model.specs.Records.{shape_of, entered};
ghost use Rattle.model.specs.Consistent.{RecordOk};
ghost use Rattle.examine_record.specs.Tests.{Classed, Tested};
ghost use Rattle.layout.specs.Region as Region;

use layout::Geometry;
use model::Segment;

// Whether the shape at a word is of a class: the class's block holds it, and half the block, which is the block of the class below, does not.
fn is_of_class(g: Geometry, mem: &[u32], at: usize, class: u32) -> bool
    requires { (Sized g (length mem.now)) × (at < len g Region.heap) × IsClass class }
    ensures { Decides result (class_of_record (shape_of (mem_of g mem.now) at) ≡ Some class) }
{
    let shape = records::shape(g, mem, at);
    let fields = shape.pointer_count as usize + shape.value_count as usize;
    let words = classes::block_words(class);
    fields < words && (class == classes::FIRST_CLASS || words / 2 <= fields)
}

// Whether block b of segment s is in use.
pub fn is_used(g: Geometry, mem: &[u32], s: usize, b: usize) -> bool
    requires { (Sized g (length mem.now)) × (s < g.segments) × (b < most_blocks g) }
    ensures { Decides result (used_bit g (mem_of g mem.now) s b ≡ 1) }
{
    if b < segments::place(g, mem, s) as usize {
        return true;
    }
    let a = layout::bitmap_from(g, s);
    let end = layout::bitmap_from(g, s + 1);
    words::bit_at(&mem[a..end], b as u32) == 1
}

// The test of a word in a segment of a class.
fn test_block(g: Geometry, mem: &[u32], at: usize, s: usize, class: u32) -> Option<usize>
    requires { (Sized g (length mem.now)) × (at < len g Region.heap) × (s ≡ segment_of g at) × Classed (mem_of g mem.now) s class }
    ensures { Tested g (mem_of g mem.now) at result }
{
    let offset = layout::offset_of(g, at);
    let words = classes::block_words(class);
    if offset % words != 0 {
        return None;
    }
    let b = offset / words;
    if is_used(g, mem, s, b) && is_of_class(g, mem, at, class) {
        return Some(layout::mark_bit(at));
    }
    None
}

// The test of a word: the bit of the record there, or that there is none.
pub fn test(g: Geometry, mem: &[u32], at: usize) -> Option<usize>
    requires { Sized g (length mem.now) }
    ensures { Tested g (mem_of g mem.now) at result }
{
    if layout::heap_words(g) <= at {
        return None;
    }
    let s = layout::segment_of(g, at);
    if segments::tag(g, mem, s) == Segment::TAG_FREE {
        return None;
    }
    let class = segments::class(g, mem, s);
    if !classes::is_class(class) {
        return None;
    }
    test_block(g, mem, at, s, class)
}

// Whether a record's bit is set.
pub fn is_entered(g: Geometry, mem: &[u32], at: usize) -> bool
    requires { (Sized g (length mem.now)) × RecordOk g (mem_of g mem.now) at }
    ensures { result ≡ eqb (entered g (mem_of g mem.now) at) 1 }
{
    marks::is_set(g, mem, layout::mark_bit(at))
}
