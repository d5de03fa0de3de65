// Records in the lent slice: what a root's word names, a record's shape, and the words of its fields. Over memory of any content a field's
// word lies in the heap, or the answer is 13.
#![tactic(auto)]

ghost use Rattle.std.specs.Prelude.{◌≡◌, ◌+◌, ◌<◌, ◌≤◌, eqb, length, replicate};
ghost use Rattle.basics.specs.Pick.{pick};
ghost use Rattle.classes.specs.Record.{field_count_of};
ghost use Rattle.layout.specs.Geometry.{Sized, len};
ghost use Rattle.layout.specs.Mem.{mem_of, heap_word, set_heap, set_run};
ghost use Rattle.model.specs.Records.{InHalves, written};
ghost use Rattle.records.specs.FieldWords.{held_of, ShapeRead, pointer_at, value_at};
ghost use Rattle.layout.specs.Region as Region;

use classes::RecordShape;
use layout::Geometry;
use model::{Held, Refusal};

// A header word has the pointers' count in its upper half, and the values' in its lower.
pub const HALF_WORD: u32 = 65536;

pub fn held_of(w: u32) -> Held
    ensures { result ≡ held_of w }
{
    if w == 0 {
        return Held::Nil;
    }
    Held::Record((w - 1) as usize)
}

// The shape of the record at a word.
pub fn shape(g: Geometry, mem: &[u32], at: usize) -> RecordShape
    requires { (Sized g (length mem.now)) × (at < len g Region.heap) }
    ensures { ShapeRead (mem_of g mem.now) at result }
{
    let header = layout::word(g, mem, at);
    RecordShape {
        pointer_count: header / HALF_WORD,
        value_count: header % HALF_WORD,
    }
}

// Pointer f of the record at a word.
pub fn pointer_at(g: Geometry, mem: &[u32], at: usize, f: u32) -> Result<usize, Refusal>
    requires { Sized g (length mem.now) }
    ensures { result ≡ pointer_at g (mem_of g mem.now) at f }
{
    let end = layout::heap_words(g);
    if end <= at {
        return Err(Refusal::Torn);
    }
    let shape = shape(g, mem, at);
    if shape.pointer_count <= f {
        return Err(Refusal::Field);
    }
    let word = at + 1 + f as usize;
    if end <= word {
        return Err(Refusal::Torn);
    }
    Ok(word)
}

// Value f of the record at a word.
pub fn value_at(g: Geometry, mem: &[u32], at: usize, f: u32) -> Result<usize, Refusal>
    requires { Sized g (length mem.now) }
    ensures { result ≡ value_at g (mem_of g mem.now) at f }
{
    let end = layout::heap_words(g);
    if end <= at {
        return Err(Refusal::Torn);
    }
    let shape = shape(g, mem, at);
    if shape.value_count <= f {
        return Err(Refusal::Field);
    }
    let word = at + 1 + shape.pointer_count as usize + f as usize;
    if end <= word {
        return Err(Refusal::Torn);
    }
    Ok(word)
}

// What a field's word holds.
pub fn field(g: Geometry, mem: &[u32], word: usize) -> u32
    requires { (Sized g (length mem.now)) × (word < len g Region.heap) }
    ensures { result ≡ heap_word (mem_of g mem.now) word }
{
    layout::word(g, mem, word)
}

pub fn set_field(g: Geometry, mem: &mut [u32], word: usize, v: u32)
    requires { (Sized g (length mem.old)) × (word < len g Region.heap) }
    ensures { mem_of g mem.new ≡ set_heap (mem_of g mem.old) word v }
{
    layout::set_word(g, mem, word, v);
}

// Four words cleared, from word i on: the compiler makes one store of them.
fn clear_four(g: Geometry, mem: &mut [u32], i: usize)
    requires { (Sized g (length mem.old)) × (i + 4 ≤ len g Region.heap) }
    ensures { mem_of g mem.new ≡ set_run (mem_of g mem.old) Region.heap i (replicate 4 0) }
{
    layout::set_word(g, mem, i, 0);
    layout::set_word(g, mem, i + 1, 0);
    layout::set_word(g, mem, i + 2, 0);
    layout::set_word(g, mem, i + 3, 0);
}

// The first two words after a word cleared, unless there is only one.
fn clear_two(g: Geometry, mem: &mut [u32], at: usize, n: usize)
    requires { (Sized g (length mem.old)) × (at + 1 + n ≤ len g Region.heap) × (1 ≤ n) }
    ensures { mem_of g mem.new ≡ pick (eqb n 1) (mem_of g mem.old) (set_run (mem_of g mem.old) Region.heap (at + 1) (replicate 2 0)) }
{
    if n != 1 {
        layout::set_word(g, mem, at + 1, 0);
        layout::set_word(g, mem, at + 2, 0);
        return;
    }
}

// At most three fields of the record at a word cleared, by stores that may meet.
fn clear_three(g: Geometry, mem: &mut [u32], at: usize, n: usize)
    requires { (Sized g (length mem.old)) × (at + 1 + n ≤ len g Region.heap) × (n < 4) }
    ensures { mem_of g mem.new ≡ set_run (mem_of g mem.old) Region.heap (at + 1) (replicate n 0) }
{
    if n == 0 {
        return;
    }
    clear_two(g, mem, at, n);
    layout::set_word(g, mem, at + n, 0);
}

// At most 16 fields of the record at a word cleared: four words at a time from both ends, which may meet.
fn clear_few(g: Geometry, mem: &mut [u32], at: usize, n: usize)
    requires { (Sized g (length mem.old)) × (at + 1 + n ≤ len g Region.heap) × (n ≤ 16) }
    ensures { mem_of g mem.new ≡ set_run (mem_of g mem.old) Region.heap (at + 1) (replicate n 0) }
{
    if n < 4 {
        clear_three(g, mem, at, n);
    } else if n <= 8 {
        clear_four(g, mem, at + 1);
        clear_four(g, mem, at + n - 3);
    } else {
        clear_four(g, mem, at + 1);
        clear_four(g, mem, at + 5);
        clear_four(g, mem, at + n - 7);
        clear_four(g, mem, at + n - 3);
    }
}

// The fields of the record at a word cleared.
fn clear_fields(g: Geometry, mem: &mut [u32], at: usize, n: usize)
    requires { (Sized g (length mem.old)) × (at + 1 + n ≤ len g Region.heap) }
    ensures { mem_of g mem.new ≡ set_run (mem_of g mem.old) Region.heap (at + 1) (replicate n 0) }
{
    if n <= 16 {
        clear_few(g, mem, at, n);
    } else {
        layout::clear_heap(g, mem, at + 1, n);
    }
}

// A record of a shape at a word: its header, and every field nil or 0.
pub fn write(g: Geometry, mem: &mut [u32], at: usize, shape: RecordShape)
    requires { (Sized g (length mem.old)) × (InHalves shape) × (at + 1 + field_count_of shape ≤ len g Region.heap) }
    ensures { mem_of g mem.new ≡ written (mem_of g mem.old) at shape }
{
    let p = shape.pointer_count;
    let n = shape.value_count;
    layout::set_word(g, mem, at, p * HALF_WORD + n);
    clear_fields(g, mem, at, (p + n) as usize);
}

// A record of a shape of at most 16 fields at a word: its header, and every field nil or 0.
pub fn write_few(g: Geometry, mem: &mut [u32], at: usize, shape: RecordShape)
    requires { (Sized g (length mem.old)) × (field_count_of shape ≤ 16) × (at + 1 + field_count_of shape ≤ len g Region.heap) }
    ensures { mem_of g mem.new ≡ written (mem_of g mem.old) at shape }
{
    let p = shape.pointer_count;
    let n = shape.value_count;
    layout::set_word(g, mem, at, p * HALF_WORD + n);
    clear_few(g, mem, at, (p + n) as usize);
}
