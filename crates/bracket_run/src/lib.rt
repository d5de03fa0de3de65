// The bracket program's loop: standard input is read in pieces to its end, and the replies to the lines that end in a piece are written at once.
#![tactic(auto)]

ghost use Rattle.std.specs.Prelude.{◌≡◌, ◌+◌, ◌*◌, ◌≤◌, [], ◌∷◌, length, take};
ghost use Rattle.bracket_forms.specs.Replies.{reply_text};
ghost use Rattle.bracket_run.specs.Printed.{Prints, Wrote, Passed, most_reply, LineWithin};
ghost use Rattle.bracket_run.specs.Bracket.{state_of, begun_of};
ghost use Rattle.bracket_lines.specs.Lines.{whole};
ghost use Rattle.bracket_lines.specs.Split.{heard};

use bracket_forms::Reply;
use bracket_lines::Found;
use bracket_steps::{Session, WORDS};
use std::io::{self, Read};

// The bytes of a piece of the input, and of the replies to as many lines.
const PIECE: usize = 4096;

const REPLIES: usize = 33 * PIECE;

// The program between two lines: the session over the lent words, how many bytes of the next line came, which are at the front of
// `line`, and how many bytes of replies are in `out`.
#[derive(Drop)]
struct Bracket {
    session: Session,
    words: [u32; WORDS],
    count: usize,
    line: [u8; 80],
    used: usize,
    out: [u8; REPLIES],
}

// A reply and a line feed behind the first `used` bytes of a buffer; answers how many it then has.
fn put_line(reply: Reply, out: &mut [u8], used: usize) -> usize
    requires { used + most_reply ≤ length out.old }
    ensures { Prints (reply_text reply) out.old used result out.new }
{
    let mut text = [0u8; 32];
    let n = bracket_forms::write_reply(reply, &mut text);
    let end = used + n;
    out[used..end].copy_from_slice(&text[..n]);
    out[end] = b'\n';
    end + 1
}

impl Bracket {
    // The reply to a line of `n` bytes behind those that the buffer has.
    fn answer(&mut self, n: usize)
        requires { (self.old.used + most_reply ≤ length self.old.out) × (n ≤ length self.old.line) }
        ensures wrote { Wrote (state_of self.old) (whole (take n self.old.line) ∷ []) self.old.out self.old.used self.new.used self.new.out (state_of self.new) }
        ensures begun { begun_of self.new ≡ begun_of self.old }
    {
        let said = bracket_steps::answer_line(self.session, &mut self.words, &self.line[..n]);
        self.session = said.session;
        self.used = put_line(said.reply, &mut self.out, self.used);
    }

    // What the splitter tells: no line, a line at the front of its buffer, or that there was one of more than 80 bytes.
    fn hear(&mut self, found: Found)
        requires { (self.old.used + most_reply ≤ length self.old.out) × LineWithin found self.old.line }
        ensures wrote { Wrote (state_of self.old) (heard found self.old.line) self.old.out self.old.used self.new.used self.new.out (state_of self.new) }
        ensures begun { begun_of self.new ≡ begun_of self.old }
    {
        match found {
            Found::More => {}
            Found::Line(n) => self.answer(n),
            Found::Overlong => self.used = put_line(Reply::Bad, &mut self.out, self.used),
        }
    }

    // All lines that end in a piece of the input, at the front of the buffer.
    // Kept: the loop is a `while`, since each turn passes over as many bytes as its line has.
    fn answer_piece(&mut self, piece: &[u8])
        requires { length piece.now * most_reply ≤ length self.old.out }
        ensures room { self.new.used ≤ REPLIES }
        ensures passed { Passed (state_of self.old) (begun_of self.old) piece.now (begun_of self.new) (take self.new.used self.new.out) (state_of self.new) }
    {
        self.used = 0;
        let mut at = 0;
        while at < piece.len() {
            let s = bracket_lines::next_line(piece, at, self.count, &mut self.line);
            at = s.next;
            self.count = s.count;
            self.hear(s.found);
        }
    }

    // One read, which takes what has come, and the replies to it written; answers whether the input goes on. A read that fails
    // counts as the input's end.
    fn read_some(&mut self, rt: &impl Print, input: &mut impl Read) -> io::Result<bool> {
        let mut piece = [0u8; PIECE];
        let n = input.read(&mut piece).unwrap_or(0);
        if n == 0 {
            return Ok(false);
        }
        self.answer_piece(&piece[..n]);
        rt.write_all(&self.out[..self.used])?;
        Ok(true)
    }

    // The last line may lack its line feed.
    fn end_input(&mut self, rt: &impl Print) -> io::Result<()> {
        self.used = 0;
        self.hear(bracket_lines::finish(self.count));
        rt.write_all(&self.out[..self.used])
    }
}

// A proved loop has to end, and nothing says that an input does: the loop counts its turns, up to a number that no run reaches. It ends
// where a write fails.
fn converse(rt: &(impl io::Input + Print)) -> io::Result<()> {
    let mut input = rt.reader();
    let mut bracket = Bracket {
        session: bracket_steps::unopened(),
        words: [0; WORDS],
        count: 0,
        line: [0; 80],
        used: 0,
        out: [0; REPLIES],
    };
    for _ in 0..u64::MAX {
        if !bracket.read_some(rt, &mut input)? {
            return bracket.end_input(rt);
        }
    }
    Ok(())
}

// The program.
pub fn run(rt: &(impl io::Input + Print)) {
    let _ = converse(rt);
}
