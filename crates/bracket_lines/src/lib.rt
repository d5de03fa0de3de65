// Splits a stream of bytes into lines. A line may come in pieces, and its first 80 bytes are kept in a buffer that the
// caller lends; of a longer line only that it was too long is told, once.
#![tactic(auto)]

ghost use Rattle.std.specs.Prelude.{◌≡◌};
ghost use Rattle.bracket_lines.specs.Split.{line_end, step_of, keep, finished, Scans};

// What a byte, a run of bytes or the end of the stream tells: no line; a line of so many bytes, which are at the front
// of the buffer; or a line of more than 80 bytes.
// Kept: three things can be told, each with a name, where an Option of a Result would need a type of its own for the third.
#[derive(Clone, Copy)]
pub enum Found {
    More,
    Line(usize),
    Overlong,
}

// After a byte: how many bytes of the line came, at most 81, and what is told.
#[derive(Clone, Copy)]
pub struct Step {
    pub count: usize,
    pub found: Found,
}

// After a run of bytes: the place of the next one as well.
#[derive(Clone, Copy)]
pub struct Scan {
    pub next: usize,
    pub count: usize,
    pub found: Found,
}

// The end of a line of so many bytes.
#[tactic(auto, unfolding(crate::specs::Split::line_end))]
fn line_end(count: usize) -> Found
    ensures { result ≡ line_end count }
{
    if count <= 80 {
        Found::Line(count)
    } else {
        Found::Overlong
    }
}

// One byte of the stream, after `count` bytes of its line.
#[tactic(auto, unfolding(crate::specs::Split::step_of, crate::specs::Split::keep))]
pub fn take_byte(count: usize, byte: u8, line: &mut [u8; 80]) -> Step
    ensures { (result ≡ step_of count byte) × (line.new ≡ keep count byte line.old) }
{
    if byte == b'\n' {
        return Step {
            count: 0,
            found: line_end(count),
        };
    }
    if count < 80 {
        line[count] = byte;
        return Step {
            count: count + 1,
            found: Found::More,
        };
    }
    Step {
        count: 81,
        found: Found::More,
    }
}

// The end of the stream, after `count` bytes of a line that has no line feed.
#[tactic(auto, unfolding(crate::specs::Split::finished))]
pub fn finish(count: usize) -> Found
    ensures { result ≡ finished count }
{
    if count == 0 {
        Found::More
    } else {
        line_end(count)
    }
}

// Goes on through a piece of the stream until a line ends or the piece does.
pub fn next_line(chunk: &[u8], from: usize, count: usize, line: &mut [u8; 80]) -> Scan
    ensures { Scans chunk.now from count line.old result line.new }
{
    let mut n = count;
    for at in from..chunk.len() {
        let s = take_byte(n, chunk[at], line);
        n = s.count;
        match s.found {
            Found::More => {}
            found => {
                return Scan {
                    next: at + 1,
                    count: n,
                    found,
                };
            }
        }
    }
    Scan {
        next: from.max(chunk.len()),
        count: n,
        found: Found::More,
    }
}
