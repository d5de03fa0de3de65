// make: a segment to take a block from, the next free block of it, and the record there. The call has no `requires` and keeps the model's promise of it.
// Over memory that fails the examination a stack, a bitmap or a count may lead astray: then the answer is 13.
#![tactic(auto)]

ghost use Rattle.std.specs.Prelude.{◌≡◌, true, suc, ◌%◌, ◌≤◌, ◌<◌, length, Some};
ghost use Rattle.classes.specs.Class.{IsClass};
ghost use Rattle.classes.specs.Record.{field_count_of, class_of_record};
ghost use Rattle.layout.specs.Geometry.{Sized, IsSize, len, max_segments, mutator_count, root_count, blocks_in};
ghost use Rattle.layout.specs.Mem.{mem_of};
ghost use Rattle.theory.specs.Calls.{c_make};
ghost use Rattle.model.specs.Fields.{set_root};
ghost use Rattle.model.specs.Records.{header_of};
ghost use Rattle.model.specs.Making.{set_held, blackened};
ghost use Rattle.model.specs.Promise.{Promise};
ghost use Rattle.making.specs.Taking.{TakesFree, TakesNew, Takes};
ghost use Rattle.making.specs.HandingOut.{filled_as, Advances, HandsOut};
ghost use Rattle.making.specs.Beginning.{Comes, Begins, Tries, Out, OfClass, Called};
ghost use Rattle.layout.specs.Region as Region;

use bitmap_search::Two;
use classes::RecordShape;
use layout::Geometry;
use model::{Answer, Refusal, SegmentState};

// What a make that is not refused comes to before a search: it is made, or a block of a segment of a class is to be looked for.
#[derive(Drop)]
pub enum Begun {
    Made,
    Search(u32, usize),
}

// The mutator holds segment s, of a class, from a place on.
fn hold(g: Geometry, mem: &mut [u32], mutator: u32, class: u32, s: usize, place: u32)
    requires { (Sized g (length mem.old)) × (mutator < mutator_count) × (IsClass class) × (s < g.segments) }
    ensures { mem_of g mem.new ≡ set_held g (mem_of g mem.old) mutator class s place }
{
    let state = SegmentState::Held {
        class,
        place,
        mutator,
    };
    segments::write(g, mem, s, state);
    mutators::set_holding(g, mem, mutator, class, s as u32 + 1);
}

// Takes a free segment, and its blocks' bits are all 0.
fn take_free(g: Geometry, mem: &mut [u32], mutator: u32, class: u32) -> Result<usize, Refusal>
    requires { (Sized g (length mem.old)) × (mutator < mutator_count) × (IsClass class) }
    ensures { TakesFree g (mem_of g mem.old) mutator class result (mem_of g mem.new) }
{
    let t = stacks::free_stack();
    let Some(s) = stacks::top(g, mem, t)? else {
        return Err(Refusal::NoRoom);
    };
    stacks::pop(g, mem, t);
    hold(g, mem, mutator, class, s, 0);
    bitmaps::fresh(g, mem, s, class);
    Ok(s)
}

// Takes a part segment of the class, else a free one.
fn take_new(g: Geometry, mem: &mut [u32], mutator: u32, class: u32) -> Result<usize, Refusal>
    requires { (Sized g (length mem.old)) × (mutator < mutator_count) × (IsClass class) }
    ensures { TakesNew g (mem_of g mem.old) mutator class result (mem_of g mem.new) }
{
    let t = stacks::part_stack(class);
    let Some(s) = stacks::top(g, mem, t)? else {
        return take_free(g, mem, mutator, class);
    };
    let place = segments::place(g, mem, s);
    stacks::pop(g, mem, t);
    hold(g, mem, mutator, class, s, place);
    Ok(s)
}

// The segment that the mutator holds of the class, else one that it takes.
fn take(g: Geometry, mem: &mut [u32], mutator: u32, class: u32) -> Result<usize, Refusal>
    requires { (Sized g (length mem.old)) × (mutator < mutator_count) × (IsClass class) }
    ensures { Takes g (mem_of g mem.old) mutator class result (mem_of g mem.new) }
{
    let held = mutators::holding(g, mem, mutator, class) as usize;
    if held == 0 {
        return take_new(g, mem, mutator, class);
    }
    if g.segments < held {
        return Err(Refusal::Torn);
    }
    Ok(held - 1)
}

// The next free block of a held segment, counted as handed out: the place moves just past it, and where no other remains the segment becomes full.
fn advance(g: Geometry, mem: &mut [u32], mutator: u32, class: u32, s: usize) -> Result<u32, Refusal>
    requires { (Sized g (length mem.old)) × (mutator < mutator_count) × (IsClass class) × (s < g.segments) }
    ensures { Advances g (mem_of g mem.old) mutator class s result (mem_of g mem.new) }
{
    let handed = segments::handed(g, mem, s);
    if handed == u32::MAX {
        return Err(Refusal::Torn);
    }
    let place = segments::place(g, mem, s);
    match bitmaps::next_two(g, mem, s, class, place) {
        Two::More(b) => {
            segments::set_handed(g, mem, s, handed + 1);
            segments::set_place(g, mem, s, b + 1);
            Ok(b)
        }
        Two::Last(b) => {
            let last = handed + 1;
            segments::set_handed(g, mem, s, last);
            segments::write(g, mem, s, SegmentState::Full { class });
            mutators::set_holding(g, mem, mutator, class, 0);
            Ok(b)
        }
        Two::Nothing => Err(Refusal::Torn),
        Two::Torn => Err(Refusal::Torn),
    }
}

// Marks the record at a word where the mutator allocates black.
fn blacken(g: Geometry, mem: &mut [u32], mutator: u32, at: usize)
    requires { (Sized g (length mem.old)) × (mutator < mutator_count) × (at < len g Region.heap) }
    ensures { mem_of g mem.new ≡ blackened g (mem_of g mem.old) mutator at }
{
    let phase = control::phase(g, mem);
    if phase.black(mutators::acks(g, mem, mutator)) {
        marks::set(g, mem, layout::mark_bit(at));
        return;
    }
}

// The word of block b of segment s. Whatever b is, a block of the class begins there.
fn word_of(g: Geometry, class: u32, s: usize, b: u32) -> usize
    requires { (g.segments ≤ max_segments) × (IsClass class) × (s < g.segments) × (IsSize g.kib) }
    ensures { result ≡ header_of g s class (b % blocks_in g class) }
{
    let block = b as usize;
    let offset = layout::offset_of(g, block * classes::block_words(class));
    layout::word_in(g, s, offset)
}

// The record at a word is marked where it is allocated black, and root `to` names it.
fn name(g: Geometry, mem: &mut [u32], mutator: u32, to: u32, at: usize)
    requires { (Sized g (length mem.old)) × (mutator < mutator_count) × (to < root_count) × (at < len g Region.heap) }
    ensures { mem_of g mem.new ≡ set_root (blackened g (mem_of g mem.old) mutator at) mutator to (suc at) }
{
    blacken(g, mem, mutator, at);
    mutators::set_root(g, mem, mutator, to, at as u32 + 1);
}

// The record in block b of segment s, marked where it is allocated black, and root `to` names it. FEW: of at most 16 fields.
fn fill<const FEW: bool>(
    g: Geometry,
    mem: &mut [u32],
    mutator: u32,
    to: u32,
    class: u32,
    s: usize,
    b: u32,
    shape: RecordShape,
)
    requires sized { (Sized g (length mem.old)) × (mutator < mutator_count) × (to < root_count) × (s < g.segments) }
    requires of_class { class_of_record shape ≡ Some class }
    requires few { FEW ≡ true → field_count_of shape ≤ 16 }
    ensures { mem_of g mem.new ≡ filled_as g (mem_of g mem.old) mutator to class s (b % blocks_in g class) shape }
{
    let at = word_of(g, class, s, b);
    if FEW {
        records::write_few(g, mem, at, shape);
    } else {
        records::write(g, mem, at, shape);
    }
    name(g, mem, mutator, to, at);
}

// The next free block of segment s gets the record, by the search.
fn hand_out(
    g: Geometry,
    mem: &mut [u32],
    mutator: u32,
    to: u32,
    class: u32,
    s: usize,
    shape: RecordShape,
) -> Result<Answer, Refusal>
    requires sized { (Sized g (length mem.old)) × (mutator < mutator_count) × (to < root_count) × (s < g.segments) }
    requires of_class { class_of_record shape ≡ Some class }
    ensures { HandsOut g (mem_of g mem.old) mutator to class s shape result (mem_of g mem.new) }
{
    let b = advance(g, mem, mutator, class, s)?;
    fill::<false>(g, mem, mutator, to, class, s, b, shape);
    Ok(Answer::Done)
}

// The next free block of segment s gets the record, where the place's own word has it and another after it, and the count can grow; else it is to be
// looked for. FEW: of at most 16 fields, a text of its own, so that the quick way is one run of instructions.
fn hand_near<const FEW: bool>(
    g: Geometry,
    mem: &mut [u32],
    mutator: u32,
    to: u32,
    class: u32,
    s: usize,
    shape: RecordShape,
) -> Begun
    requires sized { (Sized g (length mem.old)) × (mutator < mutator_count) × (to < root_count) × (s < g.segments) }
    requires of_class { class_of_record shape ≡ Some class }
    requires few { FEW ≡ true → field_count_of shape ≤ 16 }
    ensures { Comes (Out g mem.old mutator to class s shape) g mutator to shape result mem.new }
{
    let place = segments::place(g, mem, s);
    let Some(block) = bitmaps::near(g, mem, s, place) else {
        return Begun::Search(class, s);
    };
    let since = segments::handed(g, mem, s);
    if since == u32::MAX {
        return Begun::Search(class, s);
    }
    segments::set_handed(g, mem, s, since + 1);
    segments::set_place(g, mem, s, block + 1);
    fill::<FEW>(g, mem, mutator, to, class, s, block, shape);
    Begun::Made
}

// A record of a class for the mutator.
fn begin_of(
    g: Geometry,
    mem: &mut [u32],
    mutator: u32,
    to: u32,
    class: u32,
    shape: RecordShape,
) -> Result<Begun, Refusal>
    requires sized { (Sized g (length mem.old)) × (mutator < mutator_count) × (to < root_count) }
    requires of_class { class_of_record shape ≡ Some class }
    ensures { Begins (OfClass g mem.old mutator to class shape) g mutator to shape result mem.new }
{
    let s = take(g, mem, mutator, class)?;
    Ok(hand_near::<false>(g, mem, mutator, to, class, s, shape))
}

// A record of a shape for the mutator into root `to`.
fn begin(
    g: Geometry,
    mem: &mut [u32],
    mutator: u32,
    to: u32,
    shape: RecordShape,
) -> Result<Begun, Refusal>
    ensures { Begins (Called g mem.old mutator to shape) g mutator to shape result mem.new }
{
    model::require_size(g, mem)?;
    mutators::require_root(g, mem, mutator, to)?;
    let Some(class) = classes::class_of_record(shape) else {
        return Err(Refusal::TooBig);
    };
    begin_of(g, mem, mutator, to, class, shape)
}

// A record of at most 16 fields where the mutator holds a segment of its class; else nothing.
fn try_held(
    g: Geometry,
    mem: &mut [u32],
    mutator: u32,
    to: u32,
    class: u32,
    shape: RecordShape,
) -> Option<Begun>
    requires sized { (Sized g (length mem.old)) × (mutator < mutator_count) × (to < root_count) }
    requires of_class { (class_of_record shape ≡ Some class) × (field_count_of shape ≤ 16) }
    ensures { Tries (OfClass g mem.old mutator to class shape) g mutator to shape mem.old result mem.new }
{
    let held = mutators::holding(g, mem, mutator, class) as usize;
    if held != 0 {
        if held <= g.segments {
            return Some(hand_near::<true>(g, mem, mutator, to, class, held - 1, shape));
        }
    }
    None
}

// The quick way of a make: at most 16 fields, nothing to refuse, and a segment of the class held; else nothing.
fn try_few(g: Geometry, mem: &mut [u32], mutator: u32, to: u32, shape: RecordShape) -> Option<Begun>
    ensures { Tries (Called g mem.old mutator to shape) g mutator to shape mem.old result mem.new }
{
    let fields = shape.pointer_count as u64 + shape.value_count as u64;
    if 16 < fields {
        return None;
    }
    model::require_size(g, mem).ok()?;
    mutators::require_root(g, mem, mutator, to).ok()?;
    let class = classes::class_of_few(fields as u32);
    try_held(g, mem, mutator, to, class, shape)
}

// A record of a shape for the mutator into root `to`, by the quick way, else by `begin`.
fn begin_any(
    g: Geometry,
    mem: &mut [u32],
    mutator: u32,
    to: u32,
    shape: RecordShape,
) -> Result<Begun, Refusal>
    ensures { Begins (Called g mem.old mutator to shape) g mutator to shape result mem.new }
{
    match try_few(g, mem, mutator, to, shape) {
        Some(begun) => Ok(begun),
        None => begin(g, mem, mutator, to, shape),
    }
}

// A record of so many pointers, which are nil, and values, which are 0, into root `to`.
pub fn make(
    g: Geometry,
    mem: &mut [u32],
    mutator: u32,
    to: u32,
    pointers: u32,
    values: u32,
) -> Result<Answer, Refusal>
    ensures { Promise (c_make mutator to pointers values) g mem.old result mem.new }
{
    let shape = RecordShape {
        pointer_count: pointers,
        value_count: values,
    };
    match begin_any(g, mem, mutator, to, shape)? {
        Begun::Made => Ok(Answer::Done),
        Begun::Search(class, s) => hand_out(g, mem, mutator, to, class, s, shape),
    }
}
