// Some thousand calls over random words, over small words, over an opened heap in use, which never answers 13, and over that heap with words and bits of it
// changed; and over slices and segment counts of other sizes. In the end, over such memory, a start with each phase, each tag and any count of a part stack,
// and a step in sweep with a condemned segment of any place. Each answer is printed, and BAD with it where it is not of its call's kind and range, or a number
// that the call may not give (12 is given by none). The expected output is the program's own; that no BAD stands in it is what it shows.
#![tactic(auto)]

use classes::RecordShape;
use layout::Geometry;
use model::{Answer, Refusal, Step};
use perform::Request;

// Numbers by a linear congruence.
#[derive(Clone, Copy)]
struct Dice {
    x: u32,
}

impl Dice {
    fn next(self) -> Dice {
        Dice {
            x: self.x.wrapping_mul(1664525).wrapping_add(1013904223),
        }
    }

    // A number below n, if n is not 0, from the upper bits.
    fn below(self, n: u32) -> u32 {
        if n == 0 {
            return 0;
        }
        self.x / 65536 % n
    }

    // An argument: mostly a small one, at times the largest there is.
    fn argument(self, most: u32) -> u32 {
        if self.x / 16777216 % 32 == 0 {
            return 4294967295 - self.x / 65536 % 4;
        }
        self.below(most)
    }
}

fn word(text: &[u8]) {
    io::write_all(1, text);
}

fn number(n: u32) {
    io::print_decimal(1, u64::from(n));
}

// Whether a number is one of a call's, as a bit of its set: document 01's table.
fn given(set: u32, n: u32) -> bool {
    if 13 < n {
        return false;
    }
    set >> n & 1 == 1
}

// The sets of numbers, bit n for number n.
const SIZE: u32 = 2;

const SCRIPT: u32 = 4;

const TAKEN: u32 = 8;

// 4 and 5, absent and side, which the same calls may give
const SIDE: u32 = 16 + 32;

const SLOT: u32 = 64;

const DARK: u32 = 128;

const FIELD: u32 = 256;

const BIG: u32 = 512;

const ROOM: u32 = 1024;

const NOT_NOW: u32 = 2048;

const TORN: u32 = 8192;

fn number_set(kind: u32) -> u32 {
    match kind {
        0 => SIZE + SCRIPT + TAKEN + NOT_NOW + TORN,
        1 => SIZE + SCRIPT + TAKEN + SIDE + SLOT + NOT_NOW + TORN,
        2 => SIZE + SCRIPT + SIDE + NOT_NOW + TORN,
        3 | 4 | 5 => SIZE + SCRIPT + SIDE + TORN,
        6 => SIZE + SCRIPT + SIDE + SLOT + BIG + ROOM + TORN,
        7 | 8 | 11 | 12 => SIZE + SCRIPT + SIDE + SLOT + DARK + FIELD + TORN,
        9 | 10 | 13 => SIZE + SCRIPT + SIDE + SLOT + TORN,
        14 => SIZE + SCRIPT + SIDE + SLOT + DARK + TORN,
        15 => SIZE + NOT_NOW + TORN,
        16 => SIZE,
        _ => SIZE + TORN,
    }
}

// A request of a kind, with arguments from the dice.
fn request_of(kind: u32, d: Dice) -> Request {
    let d1 = d.next();
    let d2 = d1.next();
    let d3 = d2.next();
    let mutator = d.argument(2);
    let a = d1.argument(5);
    let b = d2.argument(5);
    let c = d3.argument(100);
    match kind {
        0 => Request::Attach { mutator },
        1 => Request::Spawn {
            new: mutator,
            parent: d1.argument(2),
            root: b,
        },
        2 => Request::Detach { mutator },
        3 => Request::Check { mutator },
        4 => Request::Leave { mutator },
        5 => Request::Enter { mutator },
        6 => Request::Make {
            mutator,
            root: a,
            pointers: 500 + b % 8,
            values: c,
        },
        7 => Request::Load {
            mutator,
            to: a,
            root: b,
            field: d3.argument(4),
        },
        8 => Request::Store {
            mutator,
            root: a,
            field: d3.argument(4),
            from: b,
        },
        9 => Request::Copy {
            mutator,
            to: a,
            from: b,
        },
        10 => Request::Clear { mutator, root: a },
        11 => Request::Put {
            mutator,
            root: a,
            field: b,
            value: c,
        },
        12 => Request::Get {
            mutator,
            root: a,
            field: b,
        },
        13 => Request::Same {
            mutator,
            root: a,
            other: b,
        },
        _ => Request::Shape { mutator, root: a },
    }
}

// A refusal, or BAD where the call may not give it; torn says that 13 may come.
fn say_refused(kind: u32, torn: bool, n: u32) {
    word(b" no");
    number(n);
    if !given(number_set(kind), n) || (n == 13 && !torn) {
        word(b"BAD");
    }
}

// BAD where a number is over the most that it may be.
fn at_most(most: u32, n: u32) {
    if most < n {
        word(b"BAD");
    }
}

// A result of a kind: 0 ok, 1 a number, 2 whether equal, 3 a shape.
fn result_of(kind: u32) -> u32 {
    match kind {
        12 => 1,
        13 => 2,
        14 => 3,
        _ => 0,
    }
}

fn say_result(kind: u32, res: u32) {
    if result_of(kind) == res {
        return;
    }
    word(b"BAD");
}

fn say_shape(s: RecordShape) {
    word(b" shape");
    number(s.pointer_count);
    word(b".");
    number(s.value_count);
    at_most(65535, s.pointer_count);
    at_most(65535, s.value_count);
}

fn say(kind: u32, torn: bool, a: Result<Answer, Refusal>) {
    match a {
        Ok(Answer::Done) => {
            word(b" ok");
            say_result(kind, 0);
        }
        Ok(Answer::Number(v)) => {
            word(b" =");
            number(v);
            say_result(kind, 1);
        }
        Ok(Answer::Same(b)) => {
            if b {
                word(b" same");
            } else {
                word(b" other");
            }
            say_result(kind, 2);
        }
        Ok(Answer::Shape(s)) => {
            say_shape(s);
            say_result(kind, 3);
        }
        Err(e) => say_refused(kind, torn, e.number()),
    }
}

fn say_step(torn: bool, a: Step) {
    match a {
        Step::Waiting(n) => {
            word(b" waiting");
            number(n);
            at_most(32, n);
            if n == 0 {
                word(b"BAD");
            }
        }
        Step::Moved => word(b" moved"),
        Step::Traced => word(b" traced"),
        Step::Swept(s, freed) => {
            word(b" swept");
            number(s);
            word(b".");
            number(freed);
            at_most(0, s);
            at_most(2048, freed);
        }
        Step::Done => word(b" done"),
        Step::Idle => word(b" idle"),
        Step::Refused(n) => say_refused(17, torn, n),
    }
}

// One call over a slice, with a segment count.
fn call(mem: &mut [u32], segments: u32, kind: u32, torn: bool, d: Dice) {
    let g = Geometry {
        segments: segments as usize,
        kib: layout::SMALL_KIB,
    };
    if kind < 15 {
        say(kind, torn, perform::perform(g, mem, request_of(kind, d)));
        return;
    }
    if kind == 15 {
        say(kind, torn, starting::start(g, mem));
        return;
    }
    if kind == 16 {
        say(kind, torn, opening::open(g, mem));
        return;
    }
    say_step(torn, stepping::step(g, mem));
}

// A word below 7, or the word with one bit changed.
fn changed(w: u32, d: Dice) -> u32 {
    if d.x / 65536 % 4 == 0 {
        return d.next().below(7);
    }
    w ^ 1u32 << (d.x / 65536 % 32)
}

// A word of the slice changed, where `torn` says so.
fn change(mem: &mut [u32], d: Dice, torn: bool) {
    if !torn {
        return;
    }
    let i = (d.x / 16) as usize % layout::WORDS_OF_ONE;
    if i < mem.len() {
        let w = mem[i];
        mem[i] = changed(w, d.next());
    }
}

// A call over a slice and a count of their sizes, or now and then of others.
fn round(mem: &mut [u32], d: Dice, torn: bool, kind: u32) {
    let e = d.next();
    if e.x / 1048576 % 23 == 0 {
        call(mem, e.below(300), kind, torn, e);
        return;
    }
    if e.x / 1048576 % 23 == 1 {
        let n = mem.len();
        let cut = (e.x / 65536) as usize % 8192;
        if cut < n {
            call(&mut mem[0..cut], 1, kind, torn, e);
        }
        return;
    }
    call(mem, 1, kind, torn, e);
}

// A word from the dice: any, or one below 7.
fn filling(d: Dice, small: bool) -> u32 {
    if small {
        return d.below(7);
    }
    d.x
}

fn fill(mem: &mut [u32], d: Dice, small: bool) {
    let mut e = d;
    for w in mem.iter_mut() {
        e = e.next();
        *w = filling(e, small);
    }
}

// The kind of a call: enters, makes, starts, checks and steps more often than others, and no opening.
fn kind_of(n: u32) -> u32 {
    match n {
        16 => 0,
        4 | 18 | 19 => 5,
        20..=23 => 6,
        24 => 7,
        25 => 8,
        26 | 27 => 15,
        28..=31 => 3,
        32 => 4,
        33..=39 => 17,
        _ => n,
    }
}

// A call, after a change of a word where `changes` says so; `torn` says that 13 may come.
fn turn(mem: &mut [u32], d: Dice, changes: bool, torn: bool) {
    change(mem, d.next().next(), changes);
    round(mem, d.next(), torn, kind_of(d.below(40)));
}

// So many calls, on a line.
fn play(mem: &mut [u32], d: Dice, rounds: u32, changes: bool, torn: bool) {
    let mut e = d;
    for _ in 0..rounds {
        e = e.next().next().next();
        turn(mem, e, changes, torn);
    }
    word(b"\n");
}

// Two mutators come.
fn settle(mem: &mut [u32], d: Dice) {
    call(mem, 1, 16, false, d);
    for mutator in 0..2 {
        say(
            0,
            false,
            perform::perform(
                Geometry {
                    segments: 1,
                    kib: layout::SMALL_KIB,
                },
                mem,
                Request::Attach { mutator },
            ),
        );
    }
    play(mem, d, 12, false, false);
}

// Random words; small words, changed further; an opened heap in use, and then changed.
fn game(mem: &mut [u32], d: Dice) {
    fill(mem, d, false);
    play(mem, d, 40, false, true);
    fill(mem, d, true);
    play(mem, d, 60, true, true);
    settle(mem, d);
    play(mem, d.next(), 160, false, false);
    play(mem, d, 80, true, true);
}

// Each game from numbers of its own.
fn games(mem: &mut [u32]) {
    for i in 0u32..20 {
        let d = Dice {
            x: i.wrapping_mul(2654435761).wrapping_add(97),
        };
        game(mem, d.next().next());
    }
}

// In a heap of one segment: the segment's record, and the stacks, each with a count and one entry.
const RECORD: usize = layout::SEGMENT_WORDS + layout::HEAP_FROM;

const TAG: usize = RECORD + layout::TAG_AT;

const STACKS: usize = layout::STACKS_PER + layout::HEAP_FROM;

// A number below 6 as it is, any other as the largest there is.
fn odd(n: u32) -> u32 {
    if n < 6 {
        return n;
    }
    4294967295
}

fn set(mem: &mut [u32], i: usize, w: u32) {
    if i < mem.len() {
        mem[i] = w;
    }
}

// The count of the part stack of class 3 + n.
fn part_count(n: u32) -> usize {
    STACKS + 2 * (1 + n as usize)
}

// BAD where a word is not 0.
fn at_zero(mem: &[u32], i: usize) {
    if i < mem.len() {
        at_most(0, mem[i]);
    }
}

// A start with a phase and a tag, the count of a part stack any number: not refused, it empties that stack.
fn start_over(mem: &mut [u32], phase: u32, tag: u32, d: Dice) {
    let at = part_count(d.below(12));
    set(mem, 0, phase);
    set(mem, TAG, tag);
    set(mem, at, odd(d.next().below(8)));
    call(mem, 1, 15, true, d);
    if phase == 0 {
        at_zero(mem, at);
    }
}

// The segment is condemned with a class and a place, and one block handed out.
fn condemned(mem: &mut [u32], class: u32, place: u32) {
    set(mem, TAG, 4);
    set(mem, RECORD + layout::CLASS_AT, class);
    set(mem, RECORD + layout::PLACE_AT, place);
    set(mem, RECORD + layout::KEPT_AT, 0);
    set(mem, RECORD + layout::HANDED_AT, 1);
}

// A step in sweep, the cursor at the segment, which is condemned with any place and whatever marks; its class is 8 to 14. The free stack has room, and that
// class's part stack has room or has a segment on it, this one or none that there is.
fn sweep_over(mem: &mut [u32], i: u32, d: Dice) {
    let n = i / 7 % 7;
    condemned(mem, 8 + n, odd(i % 7));
    set(mem, 0, 4);
    set(mem, 2, 0);
    set(mem, STACKS, 0);
    set(mem, part_count(5 + n), d.next().below(2));
    call(mem, 1, 17, true, d);
}

fn over(mem: &mut [u32], sweep: bool, i: u32, d: Dice) {
    if sweep {
        sweep_over(mem, i, d);
        return;
    }
    start_over(mem, odd(i / 7), odd(i % 7), d);
}

// New words, random or small; or the memory as it is.
fn renew(mem: &mut [u32], d: Dice, new: bool, small: bool) {
    if new {
        fill(mem, d, small);
    }
}

// A start with each phase and each tag, 0 to 5 and the largest number, or a step in sweep with each of these as the place and each of seven classes, on a
// line: over new words each, or over the memory as it is.
fn overs(mem: &mut [u32], d: Dice, sweep: bool, new: bool, small: bool) {
    let mut e = d;
    for i in 0..49 {
        e = e.next();
        renew(mem, e, new, small);
        over(mem, sweep, i, e);
    }
    word(b"\n");
}

// Over random words, over small words, and over a heap in use.
fn over_games(mem: &mut [u32], d: Dice, sweep: bool) {
    overs(mem, d, sweep, true, false);
    overs(mem, d, sweep, true, true);
    settle(mem, d);
    play(mem, d.next(), 160, false, false);
    overs(mem, d, sweep, false, false);
}

fn main() {
    let mut mem = [0u32; layout::WORDS_OF_ONE];
    games(&mut mem);
    over_games(&mut mem, Dice { x: 97 }, false);
    over_games(&mut mem, Dice { x: 98 }, true);
}
