// The forms of the bracket program: the reader from a line, without its line feed, to a form, and the writers of replies and
// forms. The words and places of a form and of a reply are a fixed byte string with a name, by which it is read and written.
#![tactic(auto)]

ghost use Rattle.std.specs.Prelude.{◌≡◌, ◌≤◌, length};
ghost use Rattle.bracket_text.specs.Text.{fill, Written};
ghost use Rattle.bracket_text.specs.Fixed.{trimmed};
ghost use Rattle.bracket_text.specs.Scan.{zeros, matched};
ghost use Rattle.bracket_forms.specs.Forms.{FormRead, text_of};
ghost use Rattle.bracket_forms.specs.Kinds.{template_at, form_at, reading_of, tried_as, form_parts, reply_parts};
ghost use Rattle.bracket_forms.specs.Replies.{reply_text};

// A form with its numbers, in the order of its text. A load names its mutator twice, and holds it once.
#[derive(Clone, Copy, Debug, PartialEq, Eq)]
pub enum Form {
    // (rack segments)
    Rack(u32),
    // (attach mutator)
    Attach(u32),
    // (spawn new (parent slot))
    Spawn(u32, u32, u32),
    // (detach mutator)
    Detach(u32),
    // (make (mutator slot) (links numbers))
    Make(u32, u32, u32, u32),
    // (load (mutator to) (mutator slot field))
    Load(u32, u32, u32, u32),
    // (store (mutator slot field) from)
    Store(u32, u32, u32, u32),
    // (copy (mutator to) from)
    Copy(u32, u32, u32),
    // (clear (mutator slot))
    Clear(u32, u32),
    // (put (mutator slot field) value)
    Put(u32, u32, u32, u32),
    // (get (mutator slot field))
    Get(u32, u32, u32),
    // (same (mutator slot) slot)
    Same(u32, u32, u32),
    // (shape (mutator slot))
    Shape(u32, u32),
    // (check mutator)
    Check(u32),
    // (leave mutator)
    Leave(u32),
    // (enter mutator)
    Enter(u32),
    // (start)
    Start,
    // (step)
    Step,
}

// What the program answers to a line.
#[derive(Clone, Copy, Debug, PartialEq, Eq)]
pub enum Reply {
    // (ok)
    Ok,
    // (ok value)
    OkOne(u32),
    // (ok links numbers)
    OkTwo(u32, u32),
    // (no number)
    No(u32),
    // (bad)
    Bad,
    // (waiting mutators)
    Waiting(u32),
    // (moved)
    Moved,
    // (traced)
    Traced,
    // (swept segment freed)
    Swept(u32, u32),
    // (done)
    Done,
    // (idle)
    Idle,
}

// The text of a form or of a reply: its words and places, with `#` for a number, and spaces up to 20 bytes.
type Text = [u8; 20];

// Forms.
const RACK: Text = *b"(rack #)            ";

const ATTACH: Text = *b"(attach #)          ";

const SPAWN: Text = *b"(spawn # (# #))     ";

const DETACH: Text = *b"(detach #)          ";

const MAKE: Text = *b"(make (# #) (# #))  ";

const LOAD: Text = *b"(load (# #) (# # #))";

const STORE: Text = *b"(store (# # #) #)   ";

const COPY: Text = *b"(copy (# #) #)      ";

const CLEAR: Text = *b"(clear (# #))       ";

const PUT: Text = *b"(put (# # #) #)     ";

const GET: Text = *b"(get (# # #))       ";

const SAME: Text = *b"(same (# #) #)      ";

const SHAPE: Text = *b"(shape (# #))       ";

const CHECK: Text = *b"(check #)           ";

const LEAVE: Text = *b"(leave #)           ";

const ENTER: Text = *b"(enter #)           ";

const START: Text = *b"(start)             ";

const STEP: Text = *b"(step)              ";

// Replies.
const OK: Text = *b"(ok)                ";

const OK_ONE: Text = *b"(ok #)              ";

const OK_TWO: Text = *b"(ok # #)            ";

const NO: Text = *b"(no #)              ";

const BAD: Text = *b"(bad)               ";

const WAITING: Text = *b"(waiting #)         ";

const MOVED: Text = *b"(moved)             ";

const TRACED: Text = *b"(traced)            ";

const SWEPT: Text = *b"(swept # #)         ";

const DONE: Text = *b"(done)              ";

const IDLE: Text = *b"(idle)              ";

// How many forms there are.
const FORMS: usize = 18;

// What a writer goes by: the text, and its numbers with zeros up to five.
#[derive(Clone, Copy)]
struct Parts(Text, [u32; 5]);

fn form_parts(form: Form) -> Parts
    ensures { result ≡ form_parts form }
{
    match form {
        Form::Rack(a) => Parts(RACK, [a, 0, 0, 0, 0]),
        Form::Attach(a) => Parts(ATTACH, [a, 0, 0, 0, 0]),
        Form::Spawn(a, b, c) => Parts(SPAWN, [a, b, c, 0, 0]),
        Form::Detach(a) => Parts(DETACH, [a, 0, 0, 0, 0]),
        Form::Make(a, b, c, d) => Parts(MAKE, [a, b, c, d, 0]),
        Form::Load(a, b, c, d) => Parts(LOAD, [a, b, a, c, d]),
        Form::Store(a, b, c, d) => Parts(STORE, [a, b, c, d, 0]),
        Form::Copy(a, b, c) => Parts(COPY, [a, b, c, 0, 0]),
        Form::Clear(a, b) => Parts(CLEAR, [a, b, 0, 0, 0]),
        Form::Put(a, b, c, d) => Parts(PUT, [a, b, c, d, 0]),
        Form::Get(a, b, c) => Parts(GET, [a, b, c, 0, 0]),
        Form::Same(a, b, c) => Parts(SAME, [a, b, c, 0, 0]),
        Form::Shape(a, b) => Parts(SHAPE, [a, b, 0, 0, 0]),
        Form::Check(a) => Parts(CHECK, [a, 0, 0, 0, 0]),
        Form::Leave(a) => Parts(LEAVE, [a, 0, 0, 0, 0]),
        Form::Enter(a) => Parts(ENTER, [a, 0, 0, 0, 0]),
        Form::Start => Parts(START, [0, 0, 0, 0, 0]),
        Form::Step => Parts(STEP, [0, 0, 0, 0, 0]),
    }
}

// The forms in the order in which the reader tries them: form number `kind`, with the numbers of its text. The third of a load's
// is its mutator again.
#[tactic(auto, unfolding(crate::specs::Kinds::form_at, crate::specs::Kinds::forms))]
fn form_at(kind: usize, a: u32, b: u32, c: u32, d: u32, e: u32) -> Form
    ensures { result ≡ form_at kind a b c d e }
{
    match kind {
        0 => Form::Rack(a),
        1 => Form::Attach(a),
        2 => Form::Spawn(a, b, c),
        3 => Form::Detach(a),
        4 => Form::Make(a, b, c, d),
        5 => Form::Load(a, b, d, e),
        6 => Form::Store(a, b, c, d),
        7 => Form::Copy(a, b, c),
        8 => Form::Clear(a, b),
        9 => Form::Put(a, b, c, d),
        10 => Form::Get(a, b, c),
        11 => Form::Same(a, b, c),
        12 => Form::Shape(a, b),
        13 => Form::Check(a),
        14 => Form::Leave(a),
        15 => Form::Enter(a),
        16 => Form::Start,
        _ => Form::Step,
    }
}

// A form whose text had this third number: it must be the form's own, so that the two mutators of a load are the same.
fn reading_of(form: Form, third: u32) -> Option<Form>
    ensures { result ≡ reading_of form third }
{
    let own = form_parts(form).1;
    (own[2] == third).then_some(form)
}

// Tries the text of one form: what the line is by that text, which for a load of two mutators is no form, or None where the line
// is no such text.
fn read_kind(line: &[u8], kind: usize) -> Option<Option<Form>>
    ensures { result ≡ tried_as kind (matched (template_at kind) 0 zeros line.now) }
{
    let text = form_parts(form_at(kind, 0, 0, 0, 0, 0)).0;
    let n = bracket_text::match_text(line, &text)?;
    let form = form_at(kind, n[0], n[1], n[2], n[3], n[4]);
    Some(reading_of(form, n[2]))
}

// The form whose text a line is, if there is one.
// Kept: the loop is written out, since the proof with `find_map` was tried and left a goal on its runs that did not close.
pub fn read_form(line: &[u8]) -> Option<Form>
    ensures { FormRead line.now result }
{
    for kind in 0..FORMS {
        if let Some(reading) = read_kind(line, kind) {
            return reading;
        }
    }
    None
}

// Writes a text with these numbers at the front of a buffer that is long enough, and says its length.
fn write_parts(parts: Parts, buf: &mut [u8]) -> usize
    requires { length (fill (trimmed parts.0) parts.1) ≤ length buf.old }
    ensures { Written (fill (trimmed parts.0) parts.1) buf.old result buf.new }
{
    let text = parts.0;
    let numbers = parts.1;
    bracket_text::write_text(&text, &numbers, buf)
}

// Writes a form's text at the front of a buffer, and says its length. No form's text is longer than a line may be.
pub fn write_form(form: Form, buf: &mut [u8; 80]) -> usize
    ensures { Written (text_of form) buf.old result buf.new }
{
    write_parts(form_parts(form), buf)
}

fn reply_parts(reply: Reply) -> Parts
    ensures { result ≡ reply_parts reply }
{
    match reply {
        Reply::Ok => Parts(OK, [0, 0, 0, 0, 0]),
        Reply::OkOne(a) => Parts(OK_ONE, [a, 0, 0, 0, 0]),
        Reply::OkTwo(a, b) => Parts(OK_TWO, [a, b, 0, 0, 0]),
        Reply::No(a) => Parts(NO, [a, 0, 0, 0, 0]),
        Reply::Bad => Parts(BAD, [0, 0, 0, 0, 0]),
        Reply::Waiting(a) => Parts(WAITING, [a, 0, 0, 0, 0]),
        Reply::Moved => Parts(MOVED, [0, 0, 0, 0, 0]),
        Reply::Traced => Parts(TRACED, [0, 0, 0, 0, 0]),
        Reply::Swept(a, b) => Parts(SWEPT, [a, b, 0, 0, 0]),
        Reply::Done => Parts(DONE, [0, 0, 0, 0, 0]),
        Reply::Idle => Parts(IDLE, [0, 0, 0, 0, 0]),
    }
}

// Writes a reply's text at the front of a buffer, and says its length. No reply's text is longer than 32 bytes.
pub fn write_reply(reply: Reply, buf: &mut [u8; 32]) -> usize
    ensures { Written (reply_text reply) buf.old result buf.new }
{
    write_parts(reply_parts(reply), buf)
}
