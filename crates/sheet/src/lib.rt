// The sheet: a look that prints the heap, a line for each segment. It changes no word of the memory, has no `requires` and keeps the model's promise.
// Every record is tested before the first byte is written: refused, it leaves the output unchanged. No bitmap is read: the two counts of a record add
// up to its blocks in use.
#![tactic(auto)]

ghost use Rattle.std.specs.Prelude.{◌≡◌, ◌∷◌, ◌++◌, ℕ, ◌+◌, ◌≤◌, ◌<◌, length};
ghost use Rattle.basics.specs.Decides.{Decides};
ghost use Rattle.decimals.specs.Placed.{placed};
ghost use Rattle.layout.specs.Geometry.{Sized, max_segments, sheet_bytes};
ghost use Rattle.layout.specs.Mem.{mem_of};
ghost use Rattle.model.specs.Fields.{kept_count, handed_count};
ghost use Rattle.model.specs.Sheet.{line_feed, empty_after, lines_to};
ghost use Rattle.model.specs.Promise.{SheetPromise};
ghost use Rattle.sheet.specs.Counted.{Counted, counted_line};

use layout::Geometry;
use model::{Answer, Refusal, Segment};

// The segments between two empty lines.
const GROUP: usize = 60;

// The length of the output: a line and its line feed for each segment, and the empty lines.
pub fn sheet_bytes(g: Geometry) -> usize
    requires { (1 ≤ g.segments) × (g.segments ≤ max_segments) }
    ensures { result ≡ sheet_bytes g }
{
    let n = g.segments;
    (sheet_line::LINE_BYTES + 1) * n + (n - 1) / GROUP
}

// Whether the record of segment s has a tag, a class where it is not free, and counts of no more than its blocks.
fn line_ok(g: Geometry, mem: &[u32], s: usize) -> bool
    requires { (Sized g (length mem.now)) × (s < g.segments) }
    ensures { Decides result (Counted g (mem_of g mem.now) s) }
{
    if !looks::record_ok(g, mem, s) {
        return false;
    }
    let tag = segments::tag(g, mem, s);
    if tag == Segment::TAG_FREE {
        return true;
    }
    let class = segments::class(g, mem, s);
    let blocks = layout::blocks_in(g, class);
    let kept = segments::kept(g, mem, s);
    if blocks < kept {
        return false;
    }
    let handed = segments::handed(g, mem, s);
    handed <= blocks - kept
}

// Whether the records of all segments have.
fn lines_ok(g: Geometry, mem: &[u32]) -> bool
    requires { Sized g (length mem.now) }
    ensures { Decides result ((s : ℕ) → s < g.segments → Counted g (mem_of g mem.now) s) }
{
    (0..g.segments).all(|s| line_ok(g, mem, s))
}

// The blocks in use of a segment that is not free: those kept at its last sweep, and those handed out since.
fn in_use(g: Geometry, mem: &[u32], s: usize) -> u32
    requires { (Sized g (length mem.now)) × (s < g.segments) × (kept_count (mem_of g mem.now) s + handed_count (mem_of g mem.now) s < 10000) }
    ensures { result ≡ kept_count (mem_of g mem.now) s + handed_count (mem_of g mem.now) s }
{
    segments::kept(g, mem, s) + segments::handed(g, mem, s)
}

// The line of segment s, and the place after it.
fn put_line(g: Geometry, mem: &[u32], s: usize, out: &mut [u8], at: usize) -> usize
    requires { (Sized g (length mem.now)) × (s < g.segments) × (Counted g (mem_of g mem.now) s) × (at + 51 ≤ length out.old) }
    ensures { (result ≡ at + 51) × (out.new ≡ placed out.old at (counted_line g (mem_of g mem.now) s)) }
{
    let tag = segments::tag(g, mem, s);
    if tag == Segment::TAG_FREE {
        return sheet_line::put_free(out, at, s as u32);
    }
    let class = segments::class(g, mem, s);
    let used = in_use(g, mem, s);
    let blocks = layout::blocks_in(g, class);
    sheet_line::put_used(out, at, s as u32, tag, class, used, blocks)
}

// A line feed, and after every 60th segment an empty line, if another comes; and the place after them.
fn put_end(out: &mut [u8], at: usize, n: usize, s: usize) -> usize
    requires { (s < n) × (n ≤ max_segments) × (at + length (line_feed ∷ empty_after n s) ≤ length out.old) }
    ensures { (result ≡ at + length (line_feed ∷ empty_after n s)) × (out.new ≡ placed out.old at (line_feed ∷ empty_after n s)) }
{
    out[at] = b'\n';
    let next = s + 1;
    if next % GROUP != 0 || n <= next {
        return at + 1;
    }
    out[at + 1] = b'\n';
    at + 2
}

// All lines.
fn put_lines(g: Geometry, mem: &[u32], out: &mut [u8])
    requires { (Sized g (length mem.now)) × ((s : ℕ) → s < g.segments → Counted g (mem_of g mem.now) s) × (length out.old ≡ sheet_bytes g) }
    ensures { out.new ≡ lines_to g.segments (counted_line g (mem_of g mem.now)) g.segments }
{
    let n = g.segments;
    let mut at = 0;
    for s in 0..n {
        let end = put_line(g, mem, s, out, at);
        at = put_end(out, end, n, s);
    }
}

// The sheet, into an output of its length.
pub fn sheet(g: Geometry, mem: &[u32], output: &mut [u8]) -> Result<Answer, Refusal>
    ensures { SheetPromise g mem.now output.old result output.new }
{
    model::require_size(g, mem)?;
    if output.len() != sheet_bytes(g) {
        return Err(Refusal::Size);
    }
    if !lines_ok(g, mem) {
        return Err(Refusal::Torn);
    }
    put_lines(g, mem, output);
    Ok(Answer::Done)
}
