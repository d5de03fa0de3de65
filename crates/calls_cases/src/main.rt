// Document 01's whole case, played on the calls themselves over memory that holds junk at first: each answer is printed as document 01 has it.
#![tactic(auto)]

use layout::Geometry;
use model::{Answer, Refusal, Step};
use perform::Request;

fn word(text: &[u8]) {
    io::write_all(1, text);
}

fn number(n: u32) {
    io::write_all(1, b" ");
    io::print_decimal(1, u64::from(n));
}

// A call's answer.
fn say(a: Result<Answer, Refusal>) {
    match a {
        Ok(Answer::Done) => word(b"(ok"),
        Ok(Answer::Number(v)) => {
            word(b"(ok");
            number(v);
        }
        Ok(Answer::Same(b)) => {
            word(b"(ok");
            if b {
                number(1);
            } else {
                number(0);
            }
        }
        Ok(Answer::Shape(s)) => {
            word(b"(ok");
            number(s.pointer_count);
            number(s.value_count);
        }
        Err(e) => {
            word(b"(no");
            number(e.number());
        }
    }
    word(b")\n");
}

// The answer of a step.
fn say_step(a: Step) {
    match a {
        Step::Waiting(n) => {
            word(b"(waiting");
            number(n);
        }
        Step::Moved => word(b"(moved"),
        Step::Traced => word(b"(traced"),
        Step::Swept(s, freed) => {
            word(b"(swept");
            number(s);
            number(freed);
        }
        Step::Done => word(b"(done"),
        Step::Idle => word(b"(idle"),
        Step::Refused(n) => {
            word(b"(no");
            number(n);
        }
    }
    word(b")\n");
}

fn heap() -> Geometry {
    Geometry {
        segments: 2,
        kib: layout::SMALL_KIB,
    }
}

fn ask(mem: &mut [u32], request: Request) {
    say(perform::perform(heap(), mem, request));
}

fn step(mem: &mut [u32]) {
    say_step(stepping::step(heap(), mem));
}

fn make(mem: &mut [u32], root: u32) {
    ask(
        mem,
        Request::Make {
            mutator: 0,
            root,
            pointers: 1,
            values: 600,
        },
    );
}

fn clear(mem: &mut [u32], root: u32) {
    ask(mem, Request::Clear { mutator: 0, root });
}

fn check(mem: &mut [u32]) {
    ask(mem, Request::Check { mutator: 0 });
}

// Four records of one class fill a segment; one of them is linked from another, and one is dropped.
fn fill(mem: &mut [u32]) {
    say(opening::open(heap(), mem));
    ask(mem, Request::Attach { mutator: 0 });
    for root in 0..4 {
        make(mem, root);
    }
    ask(
        mem,
        Request::Store {
            mutator: 0,
            root: 0,
            field: 0,
            from: 1,
        },
    );
    ask(
        mem,
        Request::Put {
            mutator: 0,
            root: 1,
            field: 0,
            value: 77,
        },
    );
    clear(mem, 1);
    clear(mem, 2);
}

// A cycle begins: both handshakes.
fn begin(mem: &mut [u32]) {
    say(starting::start(heap(), mem));
    step(mem);
    check(mem);
    step(mem);
    check(mem);
    step(mem);
}

// It marks and sweeps, to its end.
fn collect(mem: &mut [u32]) {
    for _ in 0..6 {
        step(mem);
    }
}

// The linked record is there still, with its number.
fn look_back(mem: &mut [u32]) {
    ask(
        mem,
        Request::Load {
            mutator: 0,
            to: 1,
            root: 0,
            field: 0,
        },
    );
    ask(
        mem,
        Request::Get {
            mutator: 0,
            root: 1,
            field: 0,
        },
    );
}

fn main() {
    let mut mem = [3735928559u32; layout::WORDS_OF_TWO];
    fill(&mut mem);
    begin(&mut mem);
    collect(&mut mem);
    look_back(&mut mem);
}
