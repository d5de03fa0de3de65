// Mark bits in the lent slice: which bit a record has, whether a bit is set, and setting one; and how many are. Over memory of any content nothing
// is read or written off the marks.
#![tactic(auto)]

ghost use Rattle.std.specs.Prelude.{◌≡◌, ◌*◌, ◌≤◌, ◌<◌, length};
ghost use Rattle.basics.specs.Decides.{Decides};
ghost use Rattle.words.specs.Bits.{bit_at, ones_among};
ghost use Rattle.layout.specs.Geometry.{Sized, IsSize, max_segments, most_blocks};
ghost use Rattle.layout.specs.Mem.{mem_of};
ghost use Rattle.marks.specs.Bits.{record_bit_at, with_mark};

use layout::Geometry;

// The number of the bit of the record at a word; none off the heap.
pub fn record_bit(g: Geometry, at: usize) -> Option<usize>
    requires { (g.segments ≤ max_segments) × (IsSize g.kib) }
    ensures { result ≡ record_bit_at g at }
{
    if layout::heap_words(g) <= at {
        return None;
    }
    Some(layout::mark_bit(at))
}

// Whether bit k is set.
pub fn is_set(g: Geometry, mem: &[u32], k: usize) -> bool
    requires { (Sized g (length mem.now)) × (k < g.segments * most_blocks g) }
    ensures { Decides result (bit_at (mem_of g mem.now).marks k ≡ 1) }
{
    let w = layout::mark(g, mem, k / 32);
    words::with_bit(w, (k % 32) as u32) == w
}

// Sets bit k.
pub fn set(g: Geometry, mem: &mut [u32], k: usize)
    requires { (Sized g (length mem.old)) × (k < g.segments * most_blocks g) }
    ensures { mem_of g mem.new ≡ with_mark (mem_of g mem.old) k }
{
    let q = k / 32;
    let w = layout::mark(g, mem, q);
    layout::set_mark(g, mem, q, words::with_bit(w, (k % 32) as u32));
}

// How many bits are set.
pub fn count(g: Geometry, mem: &[u32]) -> u32
    requires { Sized g (length mem.now) }
    ensures { result ≡ ones_among (bit_at (mem_of g mem.now).marks) (g.segments * most_blocks g) }
{
    let most = layout::trace_words(g);
    let a = layout::marks_from(g, 0);
    let b = mem.len() - most;
    words::ones_among(&mem[a..b], most as u32)
}
