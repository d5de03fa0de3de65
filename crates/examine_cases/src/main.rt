// The examination on a heap that calls made and on the same heap with single words changed: for each group of conditions the memory broken in just that way is answered no, and with
// the word put back yes; words that bind nothing hold junk and are answered yes. Each line says what was changed.
#![tactic(auto)]

ghost use Rattle.std.specs.Prelude.{◌^◌, ◌<◌};

use layout::Geometry;
use model::{Answer, Refusal, Step};
use perform::Request;

fn word(text: &[u8]) {
    io::write_all(1, text);
}

fn heap() -> Geometry {
    Geometry {
        segments: 2,
        kib: layout::SMALL_KIB,
    }
}

// A line: what was changed, and the answer.
fn say(mem: &[u32], text: &[u8]) {
    let mut scratch = [7u32; SCRATCH];
    word(text);
    match examining::examine(heap(), mem, &mut scratch) {
        Ok(true) => word(b": yes\n"),
        Ok(false) => word(b": no\n"),
        Err(_) => word(b": refused\n"),
    }
}

// The word at i of the slice becomes v, is examined, and is put back.
fn broken(mem: &mut [u32], i: usize, v: u32, text: &[u8]) {
    if i < mem.len() {
        let kept = mem[i];
        mem[i] = v;
        say(mem, text);
        mem[i] = kept;
        say(mem, b"  put back");
    }
}

// The word at i becomes v; what it was.
fn put(mem: &mut [u32], i: usize, v: u32) -> u32 {
    if i < mem.len() {
        let kept = mem[i];
        mem[i] = v;
        return kept;
    }
    0
}

// The two counts of the segment whose record begins at a place become these; what they were.
fn put_counts(mem: &mut [u32], from: usize, kept: u32, handed: u32) -> (u32, u32)
    requires { from < 2 ^ 32 }
{
    let old_kept = put(mem, from + layout::KEPT_AT, kept);
    (old_kept, put(mem, from + layout::HANDED_AT, handed))
}

// A word of a segment becomes v, with counts that fit it, so that these are not what is wrong; then all is put back.
fn broken_with(mem: &mut [u32], from: usize, kept: u32, handed: u32, i: usize, v: u32, text: &[u8])
    requires { from < 2 ^ 32 }
{
    let (old_kept, old_handed) = put_counts(mem, from, kept, handed);
    let old = put(mem, i, v);
    say(mem, text);
    put(mem, i, old);
    put_counts(mem, from, old_kept, old_handed);
    say(mem, b"  put back");
}

// A call's answer, which says nothing where the call is done.
fn expect_done(a: Result<Answer, Refusal>) {
    match a {
        Ok(Answer::Done) => {}
        Ok(Answer::Number(_)) => word(b"number\n"),
        Ok(Answer::Same(_)) => word(b"same\n"),
        Ok(Answer::Shape(_)) => word(b"shape\n"),
        Err(_) => word(b"refused\n"),
    }
}

fn ask(mem: &mut [u32], request: Request) {
    expect_done(perform::perform(heap(), mem, request));
}

fn make(mem: &mut [u32], root: u32, pointers: u32, values: u32) {
    ask(
        mem,
        Request::Make {
            mutator: 0,
            root,
            pointers,
            values,
        },
    );
}

fn store(mem: &mut [u32], root: u32, field: u32, from: u32) {
    ask(
        mem,
        Request::Store {
            mutator: 0,
            root,
            field,
            from,
        },
    );
}

fn check(mem: &mut [u32]) {
    ask(mem, Request::Check { mutator: 0 });
}

// A step, which is not refused.
fn step(mem: &mut [u32]) {
    let a = stepping::step(heap(), mem);
    match a {
        Step::Waiting(n) => {}
        Step::Moved => {}
        Step::Traced => {}
        Step::Swept(s, freed) => {}
        Step::Done => {}
        Step::Idle => {}
        Step::Refused(n) => word(b"refused\n"),
    }
}

fn begin(mem: &mut [u32]) {
    expect_done(starting::start(heap(), mem));
}

// Segment 0 is full of four records of class 12, the first pointing to the second.
fn fill(mem: &mut [u32]) {
    expect_done(opening::open(heap(), mem));
    ask(mem, Request::Attach { mutator: 0 });
    make(mem, 0, 1, 600);
    make(mem, 1, 1, 600);
}

fn fill_further(mem: &mut [u32]) {
    make(mem, 2, 1, 600);
    make(mem, 3, 1, 600);
    store(mem, 0, 0, 1);
}

// Segment 1 is held, with two records of class 4.
fn hold(mem: &mut [u32]) {
    make(mem, 4, 1, 1);
    make(mem, 5, 1, 1);
}

// Where the regions of a heap of two segments begin.
const MUTATORS: usize = layout::CONTROL_WORDS;

const HEAP: usize = layout::HEAP_FROM;

const SEGMENTS: usize = 2 * layout::SEGMENT_WORDS + layout::HEAP_FROM;

const STACKS: usize = 2 * layout::STACKS_PER + layout::HEAP_FROM;

const BITMAPS: usize = 2 * layout::BITMAPS_PER + layout::FIXED;

const MARKS: usize = 2 * layout::MARKS_PER + layout::FIXED;

const TRACE: usize = 2 * layout::TRACE_PER + layout::FIXED;

// Segment 1's record, its bitmap and its marks, and the record in block 2 of segment 0 and its mark; the part stack of class 12, the eleventh stack.
const SECOND: usize = SEGMENTS + layout::SEGMENT_RECORD_WORDS;

const SECOND_BITMAP: usize = BITMAPS + layout::BITMAP_WORDS;

const SECOND_MARKS: usize = MARKS + layout::MARK_WORDS;

const THIRD_RECORD: usize = HEAP + layout::SEGMENT_WORDS / 2;

const THIRD_MARK: usize = MARKS + layout::MARK_WORDS / 2;

const PARTS_OF_12: usize = STACKS + 10 * 3;

// The examination's scratch: two bits for each block, and a stack with an entry for each.
const SCRATCH: usize = 2 * (layout::MARK_WORDS + layout::MARK_WORDS + layout::MOST_BLOCKS);

// The phase, and the bitmap trees.
fn tree_cases(mem: &mut [u32]) {
    say(mem, b"a heap in idle");
    broken(mem, 0, 5, b"a phase over sweep");
    broken_with(
        mem,
        SECOND,
        32,
        0,
        SECOND_BITMAP,
        4294967295,
        b"a held segment's word full and its summary bit 0",
    );
}

// A full segment's bits bind nothing but its tree and its counts.
fn bit_counts(mem: &mut [u32]) {
    broken(
        mem,
        BITMAPS,
        4294967294,
        b"a full segment's bits without its counts",
    );
    broken_with(
        mem,
        SEGMENTS,
        3,
        1,
        BITMAPS,
        4294967294,
        b"a full segment's bits with its counts",
    );
}

// The two counts by themselves.
fn count_cases(mem: &mut [u32]) {
    broken(
        mem,
        SEGMENTS + layout::KEPT_AT,
        1,
        b"a full segment's count of blocks kept",
    );
    broken(
        mem,
        SEGMENTS + layout::HANDED_AT,
        4294967295,
        b"a full segment's count of blocks handed out",
    );
    broken(
        mem,
        SECOND + layout::HANDED_AT,
        1,
        b"a held segment's count of blocks handed out",
    );
}

// Segment records and stacks.
fn segment_cases(mem: &mut [u32]) {
    broken_with(
        mem,
        SEGMENTS,
        0,
        3,
        SEGMENTS + layout::PLACE_AT,
        3,
        b"a full segment's place",
    );
    broken_with(
        mem,
        SECOND,
        0,
        1024,
        SECOND + layout::PLACE_AT,
        1025,
        b"a held segment's place past its blocks",
    );
    broken_with(
        mem,
        SECOND,
        0,
        0,
        SECOND + layout::PLACE_AT,
        0,
        b"a held segment with nothing in use",
    );
    broken(mem, STACKS, 1, b"a count of the free stack");
}

// What mutators hold, and what an absent one keeps.
fn mutator_cases(mem: &mut [u32]) {
    broken(
        mem,
        SECOND + layout::OWNER_AT,
        1,
        b"a held segment's mutator",
    );
    broken(
        mem,
        MUTATORS + layout::HELD_FROM + 1,
        0,
        b"the table of held segments",
    );
    broken(mem, MUTATORS + layout::STATE_AT, 3, b"a state over outside");
    broken(
        mem,
        MUTATORS + 2 * layout::MUTATOR_WORDS,
        1,
        b"a root of an absent mutator",
    );
}

// Live records, and the trace stack in idle.
fn record_cases(mem: &mut [u32]) {
    broken(mem, MUTATORS, 2, b"a root that names no record's head");
    broken(mem, HEAP, 65636, b"a live record's header of another class");
    broken(mem, HEAP + 1, 5000, b"a live record's pointer");
    broken(mem, 1, 1, b"an entry of the trace stack in idle");
}

// The spare words of the control bind nothing, nor does the sweep's cursor in idle.
fn free_control(mem: &mut [u32]) {
    broken(
        mem,
        layout::CONTROL_WORDS - 1,
        4294967295,
        b"junk in the spare words of the control",
    );
    broken(mem, 2, 4294967295, b"the sweep's cursor in idle");
}

// Words that bind nothing.
fn free_words(mem: &mut [u32]) {
    broken(
        mem,
        MUTATORS + layout::ENTRY_WORDS,
        4294967295,
        b"junk in the spare words of an entry",
    );
    broken(mem, STACKS + 1, 4294967295, b"junk past a stack's count");
    broken(mem, TRACE, 4294967295, b"junk past the trace stack's count");
}

// Marks in idle and blocks without a record bind nothing.
fn free_blocks(mem: &mut [u32]) {
    broken(mem, MARKS, 4294967295, b"junk in the marks in idle");
    broken(
        mem,
        SEGMENTS - 1,
        4294967295,
        b"junk in a block that holds no record",
    );
}

// A record that is dropped: dead records are not examined.
fn dead_cases(mem: &mut [u32]) {
    ask(
        mem,
        Request::Clear {
            mutator: 0,
            root: 2,
        },
    );
    say(mem, b"a record dropped");
    broken(
        mem,
        THIRD_RECORD + 1,
        4294967295,
        b"a dead record's pointer",
    );
    broken(mem, THIRD_RECORD, 4294967295, b"a dead record's header");
}

// A bit among the marks is of an entry only, and at most one acknowledgement.
fn first_handshake(mem: &mut [u32]) {
    begin(mem);
    say(mem, b"in handshake 1");
    broken(
        mem,
        MUTATORS + layout::ACKS_AT,
        2,
        b"two acknowledgements in handshake 1",
    );
    broken(mem, MARKS, 1, b"a mark in handshake 1");
}

// One acknowledgement at least.
fn second_handshake(mem: &mut [u32]) {
    check(mem);
    step(mem);
    say(mem, b"in handshake 2");
    broken(
        mem,
        MUTATORS + layout::ACKS_AT,
        0,
        b"no acknowledgement in handshake 2",
    );
}

// The trace stack, its bits, and covered roots.
fn trace_cases(mem: &mut [u32]) {
    check(mem);
    say(mem, b"with its roots on the trace stack");
    broken(mem, MARKS, 0, b"an entry's bit");
    broken(mem, MUTATORS + 2, 2049, b"a root that is not covered");
    broken(mem, 1, 1, b"entries taken off, which are marked then");
}

// No entry twice; then the phase is mark, and two records are traced.
fn entry_cases(mem: &mut [u32]) {
    broken(mem, TRACE + 1, 1, b"an entry twice");
    for _ in 0..3 {
        step(mem);
    }
}

// Marks of blocks in use only, and covered roots.
fn mark_cases(mem: &mut [u32]) {
    step(mem);
    step(mem);
    say(mem, b"in mark, with records traced");
    broken(
        mem,
        MARKS + 1,
        4294967295,
        b"bits inside a block of a large class",
    );
}

// Blocks 0 and 1 of segment 1, of class 4, are in use: their bits are 0 and 2.
fn bit_cases(mem: &mut [u32]) {
    broken(mem, SECOND_MARKS, 21, b"a bit of a block not in use");
    broken(mem, SECOND_MARKS, 7, b"a bit inside a block");
}

// Then the last record is traced, and the phase is sweep.
fn covered_cases(mem: &mut [u32]) {
    broken(
        mem,
        SECOND_MARKS,
        0,
        b"marks of traced records with covered roots",
    );
    step(mem);
    step(mem);
}

// In sweep the marks of the collect set bind.
fn sweep_cases(mem: &mut [u32]) {
    say(mem, b"in sweep");
    broken(mem, 2, 1, b"a condemned segment before the cursor");
    broken(
        mem,
        2,
        4294967295,
        b"a cursor past all segments, one of them condemned",
    );
    broken(
        mem,
        MARKS,
        0,
        b"marks of reached records in the collect set",
    );
    broken(
        mem,
        SECOND_MARKS,
        0,
        b"marks outside the collect set, which bind nothing",
    );
}

fn condemned_counts(mem: &mut [u32]) {
    broken(
        mem,
        SEGMENTS + layout::KEPT_AT,
        1,
        b"a condemned segment's count of blocks kept",
    );
}

// A condemned segment's place is at its end or before it, not past it.
fn condemned_places(mem: &mut [u32]) {
    broken(
        mem,
        SEGMENTS + layout::PLACE_AT,
        5,
        b"a condemned segment's place past its blocks",
    );
    put(mem, BITMAPS, 4294967291);
    put(mem, SEGMENTS + layout::PLACE_AT, 0);
    put_counts(mem, SEGMENTS, 3, 0);
    say(mem, b"a condemned segment that was part");
}

// Its place is 0 then, and the bits of blocks 0, 1 and 3 are 1: block 2 is not in use.
fn condemned_parts(mem: &mut [u32]) {
    broken(mem, THIRD_MARK, 1, b"a mark of its block not in use");
    broken(mem, PARTS_OF_12, 1, b"a condemned segment on a part stack");
}

fn idle(mem: &mut [u32]) {
    tree_cases(mem);
    bit_counts(mem);
    count_cases(mem);
    segment_cases(mem);
    mutator_cases(mem);
    record_cases(mem);
}

fn unbound(mem: &mut [u32]) {
    free_control(mem);
    free_words(mem);
    free_blocks(mem);
    dead_cases(mem);
}

fn handshakes(mem: &mut [u32]) {
    first_handshake(mem);
    second_handshake(mem);
    trace_cases(mem);
    entry_cases(mem);
}

fn marking(mem: &mut [u32]) {
    mark_cases(mem);
    bit_cases(mem);
    covered_cases(mem);
}

fn sweeping(mem: &mut [u32]) {
    sweep_cases(mem);
    condemned_counts(mem);
    condemned_places(mem);
    condemned_parts(mem);
}

fn cases(mem: &mut [u32]) {
    idle(mem);
    unbound(mem);
    handshakes(mem);
    marking(mem);
    sweeping(mem);
}

fn main() {
    let mut mem = [3735928559u32; layout::WORDS_OF_TWO];
    fill(&mut mem);
    fill_further(&mut mem);
    hold(&mut mem);
    cases(&mut mem);
}
