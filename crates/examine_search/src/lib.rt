// The search of the heap for the examination: one search over the lent memory, with visited bits and a stack in a lent scratch. Every word may have
// any content: a record is tested before its pointers are followed, and each is visited once.
#![tactic(auto)]

ghost use Rattle.std.specs.Prelude.{◌≡◌, true, ℕ, suc, ◌+◌, ◌-◌, ◌*◌, ◌≤◌, ◌<◌, length, get_or, replicate};
ghost use Rattle.words.specs.Bits.{bit_at};
ghost use Rattle.layout.specs.Geometry.{Sized, IsSize, len, max_segments, mutator_count};
ghost use Rattle.layout.specs.Mem.{mem_of};
ghost use Rattle.model.specs.Reaching.{IsRoot, IsEntry, Live, Reached};
ghost use Rattle.model.specs.Consistent.{RecordOk};
ghost use Rattle.graph_search.specs.Walk.{Valid};
ghost use Rattle.examine_search.specs.Graph.{records_of, graph_from, followed, words_of, length_of, InRun, Follows, RootOf, PointedBy, Seeds, ByEntry, EntryCount};
ghost use Rattle.examine_search.specs.Scratch.{search_words, Blank, state_of, Lent, Enters, Came, Searched, Fresh};
ghost use Rattle.examine_search.specs.Found.{Finds, ByEntries};
ghost use Rattle.layout.specs.Region as Region;

use layout::Geometry;

// Which pointers are followed: all, or those of records whose bit is 0.
// Kept: definitions and theorems hold it as a value (`followed`, `Follows`, `graph_of`).
#[derive(Clone, Copy)]
pub enum Edges {
    All,
    Unentered,
}

// Where words that name records are read: the roots among the mutators' words, the pointers in the heap, the entries of the trace stack.
// Kept: contracts hold it as a value (`words_of`, `length_of`).
#[derive(Clone, Copy)]
pub enum Source {
    Roots,
    Pointers,
    Entries,
}

// How many pointers of a record are followed.
pub fn pointers(g: Geometry, mem: &[u32], edges: Edges, at: usize) -> usize
    requires { (Sized g (length mem.now)) × RecordOk g (mem_of g mem.now) at }
    ensures { result ≡ followed edges g (mem_of g mem.now) at }
{
    let n = records::shape(g, mem, at).pointer_count as usize;
    match edges {
        Edges::Unentered if examine_record::is_entered(g, mem, at) => 0,
        _ => n,
    }
}

// A record with bit k becomes seen; the stack's entries afterwards.
fn enter(g: Geometry, scratch: &mut [u32], at: u32, k: usize, top: usize) -> usize
    requires { (g.segments ≤ max_segments) × (length scratch.old ≡ search_words g) × (k < len g Region.trace) × ((bit_at scratch.old k ≡ 1 → ⊥) → top < len g Region.trace) × (IsSize g.kib) }
    ensures { Enters g at k scratch.old top result scratch.new }
{
    let bit = k as u32;
    if words::bit_at(scratch, bit) == 1 {
        return top;
    }
    let base = scratch.len() - layout::trace_words(g);
    words::set_bit(scratch, bit);
    let i = base + top;
    scratch[i] = at;
    top + 1
}

// Follows one word that names a record or is nil; the number of entries on the stack afterwards, or none where the word names no record.
fn follow(g: Geometry, mem: &[u32], w: u32, scratch: &mut [u32], top: usize) -> Option<usize>
    requires { Lent g mem.now scratch.old × Valid (records_of g (mem_of g mem.now)) (state_of g scratch.old top) }
    ensures { Came g (mem_of g mem.now) (λ x. w ≡ suc x) (state_of g scratch.old top) result scratch.new }
{
    if w == 0 {
        return Some(top);
    }
    let at = w - 1;
    let k = examine_record::test(g, mem, at as usize)?;
    Some(enter(g, scratch, at, k, top))
}

// Word i of those that may name records.
pub fn word(g: Geometry, mem: &[u32], source: Source, i: usize) -> u32
    requires { (Sized g (length mem.now)) × (i < length_of source g) }
    ensures { result ≡ get_or (words_of source (mem_of g mem.now)) i 0 }
{
    match source {
        Source::Roots => layout::mutator(g, mem, i),
        Source::Pointers => layout::word(g, mem, i),
        Source::Entries => layout::trace(g, mem, i),
    }
}

// A run of words: count of them from one on.
fn follow_run(
    g: Geometry,
    mem: &[u32],
    source: Source,
    from: usize,
    count: usize,
    scratch: &mut [u32],
    mut top: usize,
) -> Option<usize>
    requires { Lent g mem.now scratch.old × Valid (records_of g (mem_of g mem.now)) (state_of g scratch.old top) × (from + count ≤ length_of source g) }
    ensures { Came g (mem_of g mem.now) (InRun (words_of source (mem_of g mem.now)) from count) (state_of g scratch.old top) result scratch.new }
{
    for f in 0..count {
        let w = word(g, mem, source, from + f);
        top = follow(g, mem, w, scratch, top)?;
    }
    Some(top)
}

// A turn: the last entry is taken off, and its pointers are followed.
fn turn(g: Geometry, mem: &[u32], edges: Edges, scratch: &mut [u32], top: usize) -> Option<usize>
    requires { Lent g mem.now scratch.old × Valid (records_of g (mem_of g mem.now)) (state_of g scratch.old top) × (0 < top) }
    ensures { Came g (mem_of g mem.now) (Follows edges g (mem_of g mem.now) (get_or scratch.old (len g Region.marks + (top - 1)) 0)) (state_of g scratch.old (top - 1)) result scratch.new }
{
    let t = top - 1;
    let i = scratch.len() - layout::trace_words(g) + t;
    let at = scratch[i] as usize;
    let count = pointers(g, mem, edges, at);
    follow_run(g, mem, Source::Pointers, at + 1, count, scratch, t)
}

// The turns, until no entry is left: a bit is 1 afterwards exactly when its record is reached from what was seen; false where a reached record fails
// the test.
// Kept: a `while`, since a turn takes an entry off the stack and puts others on it.
fn finish(g: Geometry, mem: &[u32], edges: Edges, scratch: &mut [u32], mut top: usize) -> bool
    requires { Lent g mem.now scratch.old × Fresh g (mem_of g mem.now) scratch.old top }
    ensures { Searched (graph_from edges g (mem_of g mem.now) (state_of g scratch.old top)) result scratch.new }
{
    while 0 < top {
        let Some(next) = turn(g, mem, edges, scratch, top) else {
            return false;
        };
        top = next;
    }
    true
}

// The roots of mutator k, if it is attached.
fn follow_mutator(
    g: Geometry,
    mem: &[u32],
    k: u32,
    scratch: &mut [u32],
    top: usize,
) -> Option<usize>
    requires { Lent g mem.now scratch.old × Valid (records_of g (mem_of g mem.now)) (state_of g scratch.old top) × (k < mutator_count) }
    ensures { Came g (mem_of g mem.now) (RootOf (mem_of g mem.now) k) (state_of g scratch.old top) result scratch.new }
{
    if mutators::state(g, mem, k) == mutators::ABSENT {
        return Some(top);
    }
    let from = k as usize * layout::MUTATOR_WORDS;
    follow_run(
        g,
        mem,
        Source::Roots,
        from,
        layout::ROOTS as usize,
        scratch,
        top,
    )
}

// All roots of attached mutators, where no bit is 1.
fn follow_roots(g: Geometry, mem: &[u32], scratch: &mut [u32]) -> Option<usize>
    requires { Lent g mem.now scratch.old × Blank g scratch.old }
    ensures { Came g (mem_of g mem.now) (IsRoot (mem_of g mem.now)) (state_of g scratch.old 0) result scratch.new }
{
    let mut top = 0;
    for k in 0..layout::MUTATORS {
        top = follow_mutator(g, mem, k, scratch, top)?;
    }
    Some(top)
}

// How many entries the trace stack has, of those that it has room for.
fn entry_count(g: Geometry, mem: &[u32]) -> usize
    requires { Sized g (length mem.now) }
    ensures { EntryCount g (mem_of g mem.now) result }
{
    layout::trace_words(g).min(control::trace_count(g, mem) as usize)
}

// The entries of the trace stack.
fn follow_entries(g: Geometry, mem: &[u32], scratch: &mut [u32], top: usize) -> Option<usize>
    requires { Lent g mem.now scratch.old × Valid (records_of g (mem_of g mem.now)) (state_of g scratch.old top) }
    ensures { Came g (mem_of g mem.now) (IsEntry (mem_of g mem.now)) (state_of g scratch.old top) result scratch.new }
{
    let count = entry_count(g, mem);
    follow_run(g, mem, Source::Entries, 0, count, scratch, top)
}

// The pointers of the record that a word names, which passes the test.
fn follow_pointers(
    g: Geometry,
    mem: &[u32],
    w: u32,
    scratch: &mut [u32],
    top: usize,
) -> Option<usize>
    requires { Lent g mem.now scratch.old × Valid (records_of g (mem_of g mem.now)) (state_of g scratch.old top) × ((x : ℕ) → w ≡ suc x → RecordOk g (mem_of g mem.now) x) }
    ensures { Came g (mem_of g mem.now) (PointedBy (mem_of g mem.now) w) (state_of g scratch.old top) result scratch.new }
{
    if w == 0 {
        return Some(top);
    }
    let at = (w - 1) as usize;
    let count = pointers(g, mem, Edges::All, at);
    follow_run(g, mem, Source::Pointers, at + 1, count, scratch, top)
}

// A word that names a record or is nil, and the pointers of what it names.
fn seed(g: Geometry, mem: &[u32], w: u32, scratch: &mut [u32], top: usize) -> Option<usize>
    requires { Lent g mem.now scratch.old × Valid (records_of g (mem_of g mem.now)) (state_of g scratch.old top) }
    ensures { Came g (mem_of g mem.now) (Seeds (mem_of g mem.now) w) (state_of g scratch.old top) result scratch.new }
{
    let named = follow(g, mem, w, scratch, top)?;
    follow_pointers(g, mem, w, scratch, named)
}

// The entries of the trace stack and what they name, where no bit is 1.
fn seed_entries(g: Geometry, mem: &[u32], scratch: &mut [u32]) -> Option<usize>
    requires { Lent g mem.now scratch.old × Blank g scratch.old }
    ensures { Came g (mem_of g mem.now) (ByEntry (mem_of g mem.now)) (state_of g scratch.old 0) result scratch.new }
{
    let mut top = 0;
    for i in 0..entry_count(g, mem) {
        let w = layout::trace(g, mem, i);
        top = seed(g, mem, w, scratch, top)?;
    }
    Some(top)
}

// Every bit of the scratch becomes 0.
fn clear(g: Geometry, scratch: &mut [u32])
    requires { (g.segments ≤ max_segments) × (length scratch.old ≡ search_words g) × (IsSize g.kib) }
    ensures { Blank g scratch.new }
{
    let n = scratch.len() - layout::trace_words(g);
    clear_all(&mut scratch[..n]);
}

// Every word of the scratch becomes 0.
pub fn clear_all(scratch: &mut [u32])
    ensures { scratch.new ≡ replicate (length scratch.old) 0 }
{
    scratch.fill(0);
}

// The bits of the live records: those that roots and the trace stack lead to; false where one of them fails the test.
pub fn live(g: Geometry, mem: &[u32], scratch: &mut [u32]) -> bool
    requires { Lent g mem.now scratch.old }
    ensures { Finds g (mem_of g mem.now) (Live (mem_of g mem.now)) result scratch.new }
{
    clear(g, scratch);
    let Some(roots) = follow_roots(g, mem, scratch) else {
        return false;
    };
    let Some(top) = follow_entries(g, mem, scratch, roots) else {
        return false;
    };
    finish(g, mem, Edges::All, scratch, top)
}

// The bits of the records that roots lead to.
pub fn reached(g: Geometry, mem: &[u32], scratch: &mut [u32]) -> bool
    requires { Lent g mem.now scratch.old }
    ensures { Finds g (mem_of g mem.now) (Reached (mem_of g mem.now)) result scratch.new }
{
    clear(g, scratch);
    let Some(top) = follow_roots(g, mem, scratch) else {
        return false;
    };
    finish(g, mem, Edges::All, scratch, top)
}

// The bits of the records that entries of the trace stack name, and that they lead to through records whose bit among the marks is 0.
pub fn by_entries(g: Geometry, mem: &[u32], scratch: &mut [u32]) -> bool
    requires { Lent g mem.now scratch.old }
    ensures { Finds g (mem_of g mem.now) (ByEntries g (mem_of g mem.now)) result scratch.new }
{
    clear(g, scratch);
    let Some(top) = seed_entries(g, mem, scratch) else {
        return false;
    };
    finish(g, mem, Edges::Unentered, scratch, top)
}
