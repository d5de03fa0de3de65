// The examination's searches, over memory of any content: what is live passes the test, the tricolour invariant, and in sweep the marks of what is
// reached. The lent scratch has two fields of bits and a stack: a search works behind the first field, where the live bits are kept.
#![tactic(auto)]

ghost use Rattle.std.specs.Prelude.{◌≡◌, ℕ, ◌+◌, ◌≤◌, ◌<◌, length, take, drop};
ghost use Rattle.basics.specs.Decides.{Decides};
ghost use Rattle.layout.specs.Geometry.{Sized, IsSize, len, scratch_words, max_segments, mutator_count};
ghost use Rattle.layout.specs.Mem.{mem_of};
ghost use Rattle.model.specs.Reaching.{Live, Reached};
ghost use Rattle.examine_search.specs.Found.{BitsOf, Finds, ByEntries};
ghost use Rattle.examine_cycle.specs.declared.Asked.TheVariants.{Pointers, Marks};
ghost use Rattle.examine_cycle.specs.Judged.{Known, RootsFine, Judged};
ghost use Rattle.examine_colours.specs.Coloured.{Room, LiveOk, Coloured, SweptOk};
ghost use Rattle.layout.specs.Region as Region;

use examine_cycle::Asked;
use layout::Geometry;

// The words of one field of bits.
fn front(g: Geometry) -> usize
    requires { (g.segments ≤ max_segments) × (IsSize g.kib) }
    ensures { result ≡ len g Region.marks }
{
    layout::trace_words(g) / 32
}

// The search of what is live, behind the first n words.
fn live_behind(g: Geometry, mem: &[u32], n: usize, scratch: &mut [u32]) -> bool
    requires { Room g mem.now n scratch.old }
    ensures { Finds g (mem_of g mem.now) (Live (mem_of g mem.now)) result (drop n scratch.new) }
{
    examine_search::live(g, mem, &mut scratch[n..])
}

// The search of what roots lead to.
fn reached_behind(g: Geometry, mem: &[u32], n: usize, scratch: &mut [u32]) -> bool
    requires { Room g mem.now n scratch.old }
    ensures { Finds g (mem_of g mem.now) (Reached (mem_of g mem.now)) result (drop n scratch.new) }
{
    examine_search::reached(g, mem, &mut scratch[n..])
}

// The search of what entries of the trace stack lead to through unmarked records; the first n words stay.
fn entries_behind(g: Geometry, mem: &[u32], n: usize, scratch: &mut [u32]) -> bool
    requires { Room g mem.now n scratch.old }
    ensures { Finds g (mem_of g mem.now) (ByEntries g (mem_of g mem.now)) result (drop n scratch.new) × (take n scratch.new ≡ take n scratch.old) }
{
    examine_search::by_entries(g, mem, &mut scratch[n..])
}

// The n words behind the first n are copied to the front.
// Kept: a loop over indices, since `copy_from_slice` asks the C library for memmove, and the archive asks for memset alone (docs/LINKING.md).
fn copy_to_front(n: usize, scratch: &mut [u32])
    requires { n + n ≤ length scratch.old }
    ensures { take n scratch.new ≡ take n (drop n scratch.old) }
{
    for i in 0..n {
        let from = n + i;
        scratch[i] = scratch[from];
    }
}

// Whether every live record passes the test.
pub fn live_ok(g: Geometry, mem: &[u32], scratch: &mut [u32]) -> bool
    requires { (Sized g (length mem.now)) × (length scratch.old ≡ scratch_words g) }
    ensures { Decides result (LiveOk g (mem_of g mem.now)) }
{
    let n = front(g);
    live_behind(g, mem, n, scratch)
}

// Roots of mutators with two acknowledgements, by the cover bits behind the first n words.
fn roots_in(g: Geometry, mem: &[u32], n: usize, scratch: &[u32]) -> bool
    requires { Room g mem.now n scratch.now }
    ensures { Decides result ((k : ℕ) → k < mutator_count → RootsFine g (mem_of g mem.now) (drop n scratch.now) k) }
{
    examine_cycle::mutators_fine(g, mem, &scratch[n..])
}

// Pointers of live marked records, by the live bits in front and the cover bits behind.
fn pointers_in(g: Geometry, mem: &[u32], n: usize, scratch: &[u32]) -> bool
    requires { Room g mem.now n scratch.now × Known g (mem_of g mem.now) (take n scratch.now) }
    ensures { Decides result (Judged Pointers g (mem_of g mem.now) (take n scratch.now) (drop n scratch.now)) }
{
    examine_cycle::judged(g, mem, Asked::Pointers, &scratch[..n], &scratch[n..])
}

// Marks of the records whose bits lie behind the first n words.
fn marks_in(g: Geometry, mem: &[u32], n: usize, scratch: &[u32]) -> bool
    requires { Room g mem.now n scratch.now × Known g (mem_of g mem.now) (drop n scratch.now) }
    ensures { Decides result (Judged Marks g (mem_of g mem.now) (drop n scratch.now) (drop n scratch.now)) }
{
    examine_cycle::judged(g, mem, Asked::Marks, &scratch[n..], &scratch[n..])
}

// The cover bits, and what is judged by them and the live bits in front.
fn covered(g: Geometry, mem: &[u32], n: usize, scratch: &mut [u32]) -> bool
    requires { Room g mem.now n scratch.old × BitsOf g (mem_of g mem.now) (Live (mem_of g mem.now)) (take n scratch.old) }
    ensures { Decides result (Coloured g (mem_of g mem.now)) }
{
    if !entries_behind(g, mem, n, scratch) {
        return false;
    }
    if !roots_in(g, mem, n, scratch) {
        return false;
    }
    pointers_in(g, mem, n, scratch)
}

// Whether every live record passes the test and the tricolour invariant holds.
pub fn tricolour(g: Geometry, mem: &[u32], scratch: &mut [u32]) -> bool
    requires { (Sized g (length mem.now)) × (length scratch.old ≡ scratch_words g) }
    ensures { Decides result (Coloured g (mem_of g mem.now)) }
{
    let n = front(g);
    if !live_behind(g, mem, n, scratch) {
        return false;
    }
    copy_to_front(n, scratch);
    covered(g, mem, n, scratch)
}

// Whether every reached record passes the test and is marked if its segment is in the collect set.
pub fn swept(g: Geometry, mem: &[u32], scratch: &mut [u32]) -> bool
    requires { (Sized g (length mem.now)) × (length scratch.old ≡ scratch_words g) }
    ensures { Decides result (SweptOk g (mem_of g mem.now)) }
{
    let n = front(g);
    if !reached_behind(g, mem, n, scratch) {
        return false;
    }
    marks_in(g, mem, n, scratch)
}
