// Request No. 3's two counts, played on the calls themselves over memory that holds junk at first: the look at the segments' states after an opening,
// after makes in three classes, fills, each sweep, makes out of a swept segment, a take by another class, a second sweep, a detach, and a start and sweeps
// of part segments (request No. 5). Each line is a segment's six words: tag, class, place, mutator, blocks kept, blocks handed out since.
#![tactic(auto)]

use layout::Geometry;
use model::{Answer, Refusal, Step};
use perform::Request;

const SEGMENTS: usize = 4;

const WORDS: usize = SEGMENTS * layout::TOTAL_PER + layout::FIXED;

const STATES: usize = SEGMENTS * layout::SEGMENT_RECORD_WORDS;

fn word(text: &[u8]) {
    io::write_all(1, text);
}

fn number(n: u32) {
    io::write_all(1, b" ");
    io::print_decimal(1, u64::from(n));
}

// A call that is not refused says nothing.
fn expect_ok(a: Result<Answer, Refusal>) {
    match a {
        Ok(Answer::Done) => word(b""),
        _ => word(b"BAD: refused\n"),
    }
}

fn say_step(a: Step) {
    match a {
        Step::Moved => word(b"moved\n"),
        Step::Traced => word(b"traced\n"),
        Step::Swept(s, freed) => {
            word(b"swept");
            number(s);
            number(freed);
            word(b"\n");
        }
        Step::Done => word(b"done\n"),
        _ => word(b"BAD: step\n"),
    }
}

fn heap() -> Geometry {
    Geometry {
        segments: SEGMENTS,
        kib: layout::SMALL_KIB,
    }
}

fn step(mem: &mut [u32]) {
    say_step(stepping::step(heap(), mem));
}

fn ask(mem: &mut [u32], request: Request) {
    expect_ok(perform::perform(heap(), mem, request));
}

fn make(mem: &mut [u32], root: u32, values: u32) {
    ask(
        mem,
        Request::Make {
            mutator: 0,
            root,
            pointers: 0,
            values,
        },
    );
}

fn clear(mem: &mut [u32], root: u32) {
    ask(mem, Request::Clear { mutator: 0, root });
}

fn check(mem: &mut [u32]) {
    ask(mem, Request::Check { mutator: 0 });
}

// One segment's words.
fn line(words: &[u32]) {
    for &w in words {
        number(w);
    }
    word(b"\n");
}

// The six words of every segment.
fn look(mem: &[u32], title: &[u8]) {
    let mut o = [9u32; STATES];
    expect_ok(looks::states(heap(), mem, &mut o));
    word(title);
    for words in o.chunks(layout::SEGMENT_RECORD_WORDS) {
        line(words);
    }
}

// Classes 12, 13 and 11: four, two and eight blocks a segment.
fn begin(mem: &mut [u32]) {
    make(mem, 0, 600);
    make(mem, 1, 1024);
    make(mem, 2, 300);
    look(mem, b"three classes\n");
}

// The first two are filled, and one of class 14 is full at once.
fn fill(mem: &mut [u32]) {
    for root in 3..6 {
        make(mem, root, 600);
    }
    make(mem, 6, 1024);
    make(mem, 7, 4095);
    look(mem, b"filled\n");
}

// Of class 12 two records are dropped, of class 13 none, of class 14 the one.
fn drop_some(mem: &mut [u32]) {
    clear(mem, 3);
    clear(mem, 5);
    clear(mem, 7);
    expect_ok(starting::start(heap(), mem));
    look(mem, b"started\n");
}

fn handshakes(mem: &mut [u32]) {
    check(mem);
    step(mem);
    check(mem);
    step(mem);
}

fn trace(mem: &mut [u32]) {
    for _ in 0..6 {
        step(mem);
    }
}

// Its sweeps: to part, to full and to free.
fn sweep(mem: &mut [u32]) {
    step(mem);
    look(mem, b"to part\n");
    step(mem);
    look(mem, b"to full\n");
    step(mem);
    look(mem, b"to free\n");
    step(mem);
}

// The part segment is filled again, the place passing over the blocks that were kept.
fn again(mem: &mut [u32]) {
    make(mem, 3, 600);
    look(mem, b"out of part\n");
    make(mem, 5, 600);
    look(mem, b"full again\n");
}

// The freed segment is taken by another class; of class 12 a record that was kept is dropped, and one that was handed out since.
fn drop_again(mem: &mut [u32]) {
    make(mem, 7, 1024);
    look(mem, b"another class\n");
    clear(mem, 0);
    clear(mem, 3);
    expect_ok(starting::start(heap(), mem));
}

// What a sweep left is swept again, to part and to full.
fn end(mem: &mut [u32]) {
    step(mem);
    look(mem, b"to part again\n");
    step(mem);
    look(mem, b"to full again\n");
    step(mem);
}

fn second_cycle(mem: &mut [u32]) {
    drop_again(mem);
    handshakes(mem);
    trace(mem);
    step(mem);
    end(mem);
}

// The record of class 11 gets another mutator, outside; who holds the rest goes.
fn leave(mem: &mut [u32]) {
    ask(
        mem,
        Request::Spawn {
            new: 1,
            parent: 0,
            root: 2,
        },
    );
    ask(mem, Request::Leave { mutator: 1 });
    ask(mem, Request::Detach { mutator: 0 });
    look(mem, b"detached\n");
}

// A third cycle, over part segments: a start keeps their places and their counts.
fn third_cycle(mem: &mut [u32]) {
    expect_ok(starting::start(heap(), mem));
    look(mem, b"part ones condemned\n");
    for _ in 0..4 {
        step(mem);
    }
}

// Its sweeps: to free but for that of class 11, which is part again.
fn last_sweep(mem: &mut [u32]) {
    for _ in 0..5 {
        step(mem);
    }
    look(mem, b"part ones swept\n");
}

fn cycle(mem: &mut [u32]) {
    drop_some(mem);
    handshakes(mem);
    trace(mem);
    sweep(mem);
}

fn main() {
    let mut mem = [3735928559u32; WORDS];
    expect_ok(opening::open(heap(), &mut mem));
    look(&mem, b"opened\n");
    ask(&mut mem, Request::Attach { mutator: 0 });
    begin(&mut mem);
    fill(&mut mem);
    cycle(&mut mem);
    again(&mut mem);
    second_cycle(&mut mem);
    leave(&mut mem);
    third_cycle(&mut mem);
    last_sweep(&mut mem);
}
