// Numbers and templates in a line of bytes. A template is the text of a form with `#` for each number: reading compares
// a line with it, and writing copies it, with the numbers' decimals in their places. It lies in a fixed byte string, which may
// have spaces after it.
#![tactic(auto)]

ghost use Rattle.std.specs.Prelude.{◌≡◌, ◌+◌, ◌^◌, ◌≤◌, ◌<◌, length, get_or, drop};
ghost use Rattle.bracket_text.specs.Text.{is_hole, piece_text, numbers_taken, fill, Written};
ghost use Rattle.bracket_text.specs.Fixed.{length_from, trimmed};
ghost use Rattle.bracket_text.specs.Pen.{Put};
ghost use Rattle.bracket_text.specs.Scan.{IsDigit, digits_on, number_of, zeros, piece, matched, Reads, PieceRead, Matches};

// The numbers read from a line, in order, with zeros behind them.
// Kept: that at most five were read stands in the contracts and is no ghost field, since the definitions that name this type are cited by
// the clauses of this file, and a ghost field would read them.
#[derive(Clone, Copy)]
struct NumbersRead {
    values: [u32; 5],
    count: usize,
}

// Where the writing of a template goes on: the place in the buffer and the count of numbers written.
#[derive(Clone, Copy)]
struct Pen {
    at: usize,
    count: usize,
}

// The length of a template without the spaces after it.
fn template_length(text: &[u8]) -> usize
    ensures { result ≡ length_from text.now (length text.now) }
{
    for last in (0..text.len()).rev() {
        if text[last] != b' ' {
            return last + 1;
        }
    }
    0
}

// The value of a digit.
fn digit(b: u8) -> Option<u32>
    ensures { IsDigit b result }
{
    char::from(b).to_digit(10)
}

// The rest of a number whose digits up to `from` make `first`, and the place after it.
fn digits_on(line: &[u8], from: usize, first: u32) -> Option<(u32, usize)>
    requires { from ≤ length line.now }
    ensures { Reads line.now (digits_on first (drop from line.now)) result }
{
    let mut value = first;
    for at in from..line.len() {
        let Some(d) = digit(line[at]) else {
            return Some((value, at));
        };
        value = value.checked_mul(10)?.checked_add(d)?;
    }
    Some((value, line.len()))
}

// The number at a place of a line, and the place after it. A `0` stands alone, so that no number has leading zeros.
fn number_at(line: &[u8], at: usize) -> Option<(u32, usize)>
    ensures { Reads line.now (number_of (drop at line.now)) result }
{
    let d = digit(*line.get(at)?)?;
    let next = at + 1;
    if d == 0 {
        return Some((0, next));
    }
    digits_on(line, next, d)
}

// One byte of a template: a number for `#`, which goes to the next of the five places, or the byte itself; and the place in the line
// after it.
fn piece_at(line: &[u8], at: usize, byte: u8, numbers: &mut NumbersRead) -> Option<usize>
    requires { (at ≤ length line.now) × (numbers.old.count ≤ 5) }
    ensures { PieceRead line.now (piece byte numbers.old.count numbers.old.values (drop at line.now)) result numbers.new }
{
    if byte == b'#' {
        let (value, next) = number_at(line, at)?;
        let count = numbers.count;
        if count == 5 {
            return None;
        }
        numbers.values[count] = value;
        numbers.count = count + 1;
        return Some(next);
    }
    if *line.get(at)? != byte {
        return None;
    }
    Some(at + 1)
}

// The numbers that stand in a line for the `#`s of a template, in order, if the line is a text of it.
fn match_template(line: &[u8], template: &[u8]) -> Option<[u32; 5]>
    ensures { Matches (matched template.now 0 zeros line.now) result }
{
    let mut numbers = NumbersRead {
        values: [0; 5],
        count: 0,
    };
    let mut at = 0;
    for &byte in template {
        at = piece_at(line, at, byte, &mut numbers)?;
    }
    (at == line.len()).then_some(numbers.values)
}

// The same for a template in a fixed byte string.
pub fn match_text(line: &[u8], text: &[u8]) -> Option<[u32; 5]>
    ensures { Matches (matched (trimmed text.now) 0 zeros line.now) result }
{
    let n = template_length(text);
    match_template(line, &text[..n])
}

impl Pen {
    // Writes one byte of a template: the next number's decimal for `#`, which past the end is 0, or the byte itself.
    fn put(self, buf: &mut [u8], byte: u8, numbers: &[u32]) -> Pen
        requires { (self.at + length (piece_text (is_hole byte) byte (drop self.count numbers.now)) ≤ length buf.old) × (self.count + 1 < 2 ^ 64) }
        ensures { Put buf.old (piece_text (is_hole byte) byte (drop self.count numbers.now)) (numbers_taken (is_hole byte)) self result buf.new }
    {
        let at = self.at;
        let count = self.count;
        if byte == b'#' {
            let value = numbers.get(count).copied().unwrap_or(0);
            return Pen {
                at: decimals::put_number(buf, at, value),
                count: count + 1,
            };
        }
        buf[at] = byte;
        Pen { at: at + 1, count }
    }
}

// Writes the text of a template with these numbers at the front of a buffer, and says its length.
fn write_template(template: &[u8], numbers: &[u32], buf: &mut [u8]) -> usize
    requires { length (fill template.now numbers.now) ≤ length buf.old }
    ensures { Written (fill template.now numbers.now) buf.old result buf.new }
{
    let mut pen = Pen { at: 0, count: 0 };
    for &byte in template {
        pen = pen.put(buf, byte, numbers);
    }
    pen.at
}

// Writes the text of a template in a fixed byte string with these numbers at the front of a buffer, and says its length.
pub fn write_text(text: &[u8], numbers: &[u32], buf: &mut [u8]) -> usize
    requires { length (fill (trimmed text.now) numbers.now) ≤ length buf.old }
    ensures { Written (fill (trimmed text.now) numbers.now) buf.old result buf.new }
{
    let n = template_length(text);
    write_template(&text[..n], numbers, buf)
}
