// Reads standard input line by line, and prints for each line the form that it is, written anew and then as a word with its numbers,
// or (bad), or (bad) long for a line of more than 80 bytes. The input comes in pieces of 64 bytes, so that lines are split. Its good
// lines are those of document 01's whole case and a line of each form with different numbers; its bad lines are by hand.
#![tactic(auto)]

use bracket_forms::{Form, Reply};
use bracket_lines::Found;
use std::io::{Read, Stdin};

fn print(text: &[u8]) {
    io::write_all(1, text);
}

fn print_number(n: u32) {
    print(b" ");
    io::print_decimal(1, n as u64);
}

fn print_bad() {
    let mut text = [0u8; 32];
    let n = bracket_forms::write_reply(Reply::Bad, &mut text);
    print(&text[..n]);
}

// A word and its numbers.
fn print_word(word: &[u8], numbers: &[u32]) {
    print(word);
    for &n in numbers {
        print_number(n);
    }
}

// The form as a word and its numbers, in the order in which the form holds them.
fn print_parts(form: Form) {
    match form {
        Form::Rack(s) => print_word(b" rack", &[s]),
        Form::Attach(m) => print_word(b" attach", &[m]),
        Form::Spawn(new, parent, slot) => print_word(b" spawn", &[new, parent, slot]),
        Form::Detach(m) => print_word(b" detach", &[m]),
        Form::Make(m, slot, p, n) => print_word(b" make", &[m, slot, p, n]),
        Form::Load(m, to, slot, field) => print_word(b" load", &[m, to, slot, field]),
        Form::Store(m, slot, field, from) => print_word(b" store", &[m, slot, field, from]),
        Form::Copy(m, to, from) => print_word(b" copy", &[m, to, from]),
        Form::Clear(m, slot) => print_word(b" clear", &[m, slot]),
        Form::Put(m, slot, field, value) => print_word(b" put", &[m, slot, field, value]),
        Form::Get(m, slot, field) => print_word(b" get", &[m, slot, field]),
        Form::Same(m, slot, other) => print_word(b" same", &[m, slot, other]),
        Form::Shape(m, slot) => print_word(b" shape", &[m, slot]),
        Form::Check(m) => print_word(b" check", &[m]),
        Form::Leave(m) => print_word(b" leave", &[m]),
        Form::Enter(m) => print_word(b" enter", &[m]),
        Form::Start => print_word(b" start", &[]),
        Form::Step => print_word(b" step", &[]),
    }
}

fn print_form(form: Form) {
    let mut text = [0u8; 80];
    let n = bracket_forms::write_form(form, &mut text);
    print(&text[..n]);
    print_parts(form);
}

fn read_line(line: &[u8]) {
    match bracket_forms::read_form(line) {
        Some(form) => print_form(form),
        None => print_bad(),
    }
    print(b"\n");
}

// What the splitter tells: a line is at the front of the buffer, and no longer than it.
fn hear(found: Found, line: &[u8]) {
    match found {
        Found::More => {}
        Found::Line(n) => {
            if let Some(told) = line.get(..n) {
                read_line(told);
            }
        }
        Found::Overlong => {
            print_bad();
            print(b" long\n");
        }
    }
}

// All lines that end in a piece of the input; answers how many bytes of the next line it has.
// Kept: the loop is a `while`, since each turn passes over as many bytes as its line has.
fn read_piece(piece: &[u8], count: usize, line: &mut [u8; 80]) -> usize {
    let mut at = 0;
    let mut n = count;
    while at < piece.len() {
        let s = bracket_lines::next_line(piece, at, n, line);
        at = s.next;
        n = s.count;
        hear(s.found, line);
    }
    n
}

// One read, which takes what has come: how many bytes of the next line came, unless the input has ended. A read that fails counts as
// the input's end.
fn read_some(stdin: &mut Stdin, count: usize, line: &mut [u8; 80]) -> Option<usize> {
    let mut piece = [0u8; 64];
    let n = stdin.read(&mut piece).ok()?;
    if n == 0 {
        return None;
    }
    Some(read_piece(&piece[..n], count, line))
}

// The last line may lack its line feed.
fn end_input(count: usize, line: &[u8; 80]) {
    hear(bracket_lines::finish(count), line);
}

// A proved loop has to end, and nothing says that an input does: the loop counts its turns, up to a number that no run
// reaches.
fn main(rt: HostRuntime) {
    let mut stdin = rt.stdin();
    let mut line = [0u8; 80];
    let mut count = 0;
    for _ in 0..u64::MAX {
        let Some(n) = read_some(&mut stdin, count, &mut line) else {
            end_input(count, &line);
            return;
        };
        count = n;
    }
}
