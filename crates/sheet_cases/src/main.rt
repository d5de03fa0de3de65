// The sheet (request No. 10) on the calls themselves, over memory that holds junk at first: opened heaps of 1, 60, 61, 121 and 256 segments; heaps of
// 16 and of 32 KiB with segments in each state, a class 3 full of 2,048 and 4,096 blocks among them; and sheets that are refused.
#![tactic(auto)]

ghost use Rattle.std.specs.Prelude.{◌^◌, ◌<◌};

use layout::Geometry;
use model::{Answer, Refusal, Step};
use perform::Request;

fn word(text: &[u8]) {
    io::write_all(1, text);
}

fn expect_ok(a: Result<Answer, Refusal>) {
    match a {
        Ok(Answer::Done) => word(b""),
        _ => word(b"BAD: refused\n"),
    }
}

fn say_refused(a: Result<Answer, Refusal>) {
    match a {
        Err(e) => {
            word(b"refused ");
            io::print_decimal(1, u64::from(e.number()));
            word(b"\n");
        }
        _ => word(b"BAD: not refused\n"),
    }
}

fn say_step(a: Step) {
    match a {
        Step::Moved => word(b"moved\n"),
        Step::Traced => word(b"traced\n"),
        Step::Swept(s, freed) => {
            word(b"swept ");
            io::print_decimal(1, u64::from(s));
            word(b" ");
            io::print_decimal(1, u64::from(freed));
            word(b"\n");
        }
        Step::Done => word(b"done\n"),
        _ => word(b"BAD: step\n"),
    }
}

fn heap(segments: usize, kib: u32) -> Geometry {
    Geometry { segments, kib }
}

// A title, and the sheet.
fn print(g: Geometry, mem: &[u32], output: &mut [u8], title: &[u8]) {
    word(title);
    expect_ok(sheet::sheet(g, mem, output));
    word(output);
}

// An opened heap of segments of 16 KiB.
fn opened(segments: usize, mem: &mut [u32], output: &mut [u8], title: &[u8]) {
    let g = heap(segments, layout::SMALL_KIB);
    expect_ok(opening::open(g, mem));
    print(g, mem, output, title);
}

// The same over an array of so many words and one of so many bytes.
fn opened_over<const WORDS: usize, const BYTES: usize>(segments: usize, title: &[u8])
    requires { (WORDS < 2 ^ 32) × (BYTES < 2 ^ 32) }
{
    let mut mem = [3735928559u32; WORDS];
    let mut output = [63u8; BYTES];
    opened(segments, &mut mem, &mut output, title);
}

fn ask(g: Geometry, mem: &mut [u32], request: Request) {
    expect_ok(perform::perform(g, mem, request));
}

fn make(g: Geometry, mem: &mut [u32], mutator: u32, root: u32, values: u32) {
    ask(
        g,
        mem,
        Request::Make {
            mutator,
            root,
            pointers: 0,
            values,
        },
    );
}

// So many records of class 3 into one root.
fn fill(g: Geometry, mem: &mut [u32], n: u32) {
    for _ in 0..n {
        make(g, mem, 0, 0, 1);
    }
}

fn step(g: Geometry, mem: &mut [u32]) {
    say_step(stepping::step(g, mem));
}

fn checks(g: Geometry, mem: &mut [u32]) {
    ask(g, mem, Request::Check { mutator: 0 });
    ask(g, mem, Request::Check { mutator: 1 });
}

// Two mutators, and a segment of class 3 that is full.
fn begin(g: Geometry, mem: &mut [u32], blocks: u32) {
    expect_ok(opening::open(g, mem));
    ask(g, mem, Request::Attach { mutator: 0 });
    ask(g, mem, Request::Attach { mutator: 1 });
    fill(g, mem, blocks);
}

// Mutator 1 holds a segment of class 12 and one of class 11.
fn hold(g: Geometry, mem: &mut [u32]) {
    make(g, mem, 1, 0, 600);
    for root in 1..4 {
        make(g, mem, 1, root, 300);
    }
}

// A cycle to mark, in which mutator 1 goes.
fn to_mark(g: Geometry, mem: &mut [u32]) {
    expect_ok(starting::start(g, mem));
    checks(g, mem);
    step(g, mem);
    checks(g, mem);
    step(g, mem);
    ask(g, mem, Request::Detach { mutator: 1 });
}

// A record of class 10, and two of class 14.
fn in_mark(g: Geometry, mem: &mut [u32]) {
    make(g, mem, 0, 1, 200);
    make(g, mem, 0, 2, 4095);
    make(g, mem, 0, 3, 4095);
}

// What is reached is traced.
fn to_sweep(g: Geometry, mem: &mut [u32]) {
    for _ in 0..6 {
        step(g, mem);
    }
}

// After the cycle a record out of the swept segment, which has one kept and one handed out then, and a start that condemns the part segments, their
// places in the middle.
fn next_cycle(g: Geometry, mem: &mut [u32]) {
    step(g, mem);
    make(g, mem, 0, 4, 1);
    expect_ok(starting::start(g, mem));
}

fn first_sheets(g: Geometry, mem: &mut [u32], output: &mut [u8], blocks: u32) {
    begin(g, mem, blocks);
    hold(g, mem);
    print(g, mem, output, b"full, held and free\n");
    to_mark(g, mem);
    in_mark(g, mem);
    print(g, mem, output, b"in mark\n");
}

fn last_sheets(g: Geometry, mem: &mut [u32], output: &mut [u8]) {
    to_sweep(g, mem);
    step(g, mem);
    print(g, mem, output, b"swept\n");
    next_cycle(g, mem);
    print(g, mem, output, b"started again\n");
}

// Seven segments in all states.
fn states(g: Geometry, mem: &mut [u32], output: &mut [u8], blocks: u32) {
    first_sheets(g, mem, output, blocks);
    last_sheets(g, mem, output);
}

// Arrays lent whole, as references to arrays: their lengths are then known and not counted.
fn lent_32(mem: &mut [u32; 89029], output: &mut [u8; 364]) {
    states(heap(7, layout::LARGE_KIB), mem, output, 4096);
}

fn states_32() {
    let mut mem = [3735928559u32; 89029];
    let mut output = [63u8; 364];
    lent_32(&mut mem, &mut output);
}

// A sheet that is refused: the output stays as it was.
fn refuse(g: Geometry, mem: &[u32], output: &mut [u8]) {
    say_refused(sheet::sheet(g, mem, output));
    word(output);
    word(b"\n");
}

fn set(mem: &mut [u32], i: usize, v: u32) {
    if i < mem.len() {
        mem[i] = v;
    }
}

// Outputs one byte short and one byte long, and a size that is none.
fn wrong_sizes(g: Geometry, mem: &[u32]) {
    let mut short = [63u8; 363];
    let mut long = [63u8; 365];
    let mut right = [63u8; 364];
    refuse(g, mem, &mut short);
    refuse(g, mem, &mut long);
    refuse(heap(7, 15), mem, &mut right);
}

// Records of no consistent memory: the last segment of no state, of a class that is none, and segment 3 of counts whose sum wraps to 0.
fn torn(g: Geometry, mem: &mut [u32]) {
    let mut output = [63u8; 364];
    set(mem, 29748, 5);
    refuse(g, mem, &mut output);
    set(mem, 29748, 4);
    refuse(g, mem, &mut output);
}

fn torn_counts(g: Geometry, mem: &mut [u32]) {
    let mut output = [63u8; 364];
    set(mem, 29748, 0);
    set(mem, 29734, 1);
    set(mem, 29735, 4294967295);
    refuse(g, mem, &mut output);
}

fn refused(g: Geometry, mem: &mut [u32]) {
    wrong_sizes(g, mem);
    torn(g, mem);
    torn_counts(g, mem);
}

fn lent_16(mem: &mut [u32; 45111], output: &mut [u8; 364]) {
    let g = heap(7, layout::SMALL_KIB);
    states(g, mem, output, 2048);
    refused(g, mem);
}

fn states_16() {
    let mut mem = [3735928559u32; 45111];
    let mut output = [63u8; 364];
    lent_16(&mut mem, &mut output);
}

fn main() {
    opened_over::<7347, 52>(1, b"1 segment\n");
    opened_over::<378693, 3120>(60, b"60 segments\n");
    opened_over::<384987, 3173>(61, b"61 segments\n");
    opened_over::<762627, 6294>(121, b"121 segments\n");
    opened_over::<1612317, 13316>(256, b"256 segments\n");
    states_32();
    states_16();
}
