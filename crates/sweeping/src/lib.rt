// step in sweep: the lowest condemned segment is swept, or, with none left, the cycle is done. Over memory that fails the examination a segment
// may have no class, its counts may be too large, or a stack may have no room: then the answer is 13.
#![tactic(auto)]

ghost use Rattle.std.specs.Prelude.{◌≡◌, ℕ, ◌<◌, ◌-◌, length};
ghost use Rattle.classes.specs.Class.{IsClass};
ghost use Rattle.layout.specs.Geometry.{Sized};
ghost use Rattle.layout.specs.Mem.{mem_of};
ghost use Rattle.model.specs.declared.SegmentState.TheVariants.{Condemned};
ghost use Rattle.model.specs.Fields.{tag};
ghost use Rattle.model.specs.Collector.{lowest, sweeps};
ghost use Rattle.model.specs.StepParts.{StepsAs};
ghost use Rattle.model.specs.Tag as Tag;
ghost use Rattle.sweeping.specs.Sweeping.{Next, Finds, state_after, stack_after, Settles, Finishes, Sweeps};

use layout::Geometry;
use model::{Phase, Segment, SegmentState, Step};

// The first condemned segment from one on; past the last one where there is none.
// Kept: a `while` that answers its counter, so that nothing but the counter is used behind the loop. A `for` that answers Some from its body, and a
// `while` whose test is joined with the tag's, take 10 instructions a segment where this takes 6, as each address that the sweep then uses is
// counted up beside the counter; the last step of a cycle over 256 segments then misses its limit (docs/BENCH.md).
fn next_condemned(g: Geometry, mem: &[u32], from: usize) -> usize
    requires { Sized g (length mem.now) }
    ensures { Next g (mem_of g mem.now) from result }
{
    let n = g.segments;
    let mut s = from;
    while s < n {
        if segments::tag(g, mem, s) == Segment::TAG_CONDEMNED {
            return s;
        }
        s += 1;
    }
    s
}

// The lowest condemned segment, found from the cursor up: in consistent memory none stands before the cursor.
fn lowest_condemned(g: Geometry, mem: &[u32]) -> Option<usize>
    requires { Sized g (length mem.now) }
    ensures { Finds g (mem_of g mem.now) result }
{
    let s = next_condemned(g, mem, control::cursor(g, mem) as usize);
    if s < g.segments {
        return Some(s);
    }
    None
}

// The state that a segment of a class gets with so many blocks marked.
fn state_after(g: Geometry, class: u32, kept: u32) -> SegmentState
    ensures { result ≡ state_after g class kept }
{
    if kept == 0 {
        return SegmentState::Free;
    }
    if kept == layout::blocks_in(g, class) {
        return SegmentState::Full { class };
    }
    SegmentState::Part { class, place: 0 }
}

// The stack that a segment of a class with so many blocks marked is put on, unless it is full.
fn stack_after(class: u32, kept: u32) -> usize
    requires { IsClass class }
    ensures { result ≡ stack_after class kept }
{
    if kept == 0 {
        return stacks::free_stack();
    }
    stacks::part_stack(class)
}

// Segment s, of which so many blocks are marked, gets its state and goes on its stack; false where the stack has no room.
fn settle(g: Geometry, mem: &mut [u32], s: usize, class: u32, kept: u32) -> bool
    requires sized { (Sized g (length mem.old)) × (s < g.segments) }
    requires class { IsClass class }
    ensures { Settles g (mem_of g mem.old) s class kept result (mem_of g mem.new) }
{
    let state = state_after(g, class, kept);
    segments::write(g, mem, s, state);
    if kept == layout::blocks_in(g, class) {
        return true;
    }
    stacks::push(g, mem, stack_after(class, kept), s)
}

// The class of the state of a condemned segment.
fn condemned_class(state: SegmentState) -> u32
    ensures { (c p : ℕ) → state ≡ Condemned c p → result ≡ c }
{
    match state {
        SegmentState::Condemned { class, .. }
        | SegmentState::Full { class }
        | SegmentState::Held { class, .. }
        | SegmentState::Part { class, .. } => class,
        SegmentState::Free => 0,
    }
}

// Segment s, whose tree is written, of which so many blocks were in use and so many are marked: it gets its state, and the cursor passes it.
fn finish(g: Geometry, mem: &mut [u32], s: usize, class: u32, used: u32, kept: u32) -> Step
    requires sized { (Sized g (length mem.old)) × (s < g.segments) }
    requires class { IsClass class }
    ensures { Finishes g (mem_of g mem.old) s class used kept result (mem_of g mem.new) }
{
    if settle(g, mem, s, class, kept) {
        control::set_cursor(g, mem, s as u32 + 1);
        return Step::Swept(s as u32, used.saturating_sub(kept));
    }
    Step::Refused(13)
}

// Segment s is swept: its level 0 becomes the marks, it is free, full or part by their number, they are its count of blocks kept, and the cursor
// passes it. Its two counts tell what was in use. One without a mark gets a tree of free blocks by whole words, and no bit is looked at.
fn sweep_segment(g: Geometry, mem: &mut [u32], s: usize) -> Step
    requires sized { (Sized g (length mem.old)) × (s < g.segments) }
    requires s_value { tag (mem_of g mem.old) s ≡ Tag.condemned }
    ensures { Sweeps g (mem_of g mem.old) s result (mem_of g mem.new) }
{
    let segment = segments::read(g, mem, s);
    let state = segment.state;
    let class = condemned_class(state);
    if classes::is_class(class) {
        let last = segment.kept;
        let used = last as u64 + segment.handed as u64;
        let blocks = layout::blocks_in(g, class);
        if used > blocks as u64 {
            return Step::Refused(13);
        }
        if bitmaps::unmarked(g, mem, s) {
            bitmaps::fresh(g, mem, s, class);
            segments::write_counts(g, mem, s, 0, 0);
            return finish(g, mem, s, class, used as u32, 0);
        }
        let kept = bitmaps::adopt(g, mem, s, class);
        segments::write_counts(g, mem, s, kept, 0);
        return finish(g, mem, s, class, used as u32, kept);
    }
    Step::Refused(13)
}

// A step in sweep.
pub fn sweep(g: Geometry, mem: &mut [u32]) -> Step
    requires { Sized g (length mem.old) }
    ensures { StepsAs (λ g m. sweeps g (lowest m g.segments) m) g (mem_of g mem.old) result (mem_of g mem.new) }
{
    match lowest_condemned(g, mem) {
        Some(s) => sweep_segment(g, mem, s),
        None => {
            control::set_phase(g, mem, Phase::IDLE);
            Step::Done
        }
    }
}
