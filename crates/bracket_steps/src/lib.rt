// A line of the bracket program in, its reply out: the line's form is carried out by the call that it stands for, over a heap of one or
// two segments in memory that the caller lends. The state beside the memory is a value: how many segments are open.
#![tactic(auto)]

ghost use Rattle.std.specs.Prelude.{◌≡◌, length};
ghost use Rattle.model.specs.Answers.{answer_of, step_answer_of};
ghost use Rattle.bracket_steps.specs.Said.{reply_of, task_of, segments_for, one_or_two, room_words, Answers};
ghost use Rattle.bracket_steps.specs.Ran.{Ran, Carries};

use bracket_forms::{Form, Reply};
use layout::Geometry;
use model::{Answer, Refusal, Step};
use perform::Request;

// The words to lend: as many as a heap of two segments has.
pub const WORDS: usize = layout::WORDS_OF_TWO;

// How many segments are open, and 0 before an opening.
#[derive(Clone, Copy)]
pub struct Session {
    pub segments: usize,
}

// The reply to a line, and the session after it.
#[derive(Drop)]
pub struct Said {
    pub reply: Reply,
    pub session: Session,
}

// What a form asks for: an opening of so many segments, a mutator's call, start or step.
#[derive(Clone, Copy)]
enum Task {
    Open(u32),
    Call(Request),
    Start,
    Step,
}

// A heap that is not open.
pub fn unopened() -> Session
    ensures { result.segments ≡ 0 }
{
    Session { segments: 0 }
}

fn task_of(form: Form) -> Task
    ensures { result ≡ task_of form }
{
    match form {
        Form::Rack(segments) => Task::Open(segments),
        Form::Attach(mutator) => Task::Call(Request::Attach { mutator }),
        Form::Spawn(new, parent, root) => Task::Call(Request::Spawn { new, parent, root }),
        Form::Detach(mutator) => Task::Call(Request::Detach { mutator }),
        Form::Make(mutator, root, pointers, values) => Task::Call(Request::Make {
            mutator,
            root,
            pointers,
            values,
        }),
        Form::Load(mutator, to, root, field) => Task::Call(Request::Load {
            mutator,
            to,
            root,
            field,
        }),
        Form::Store(mutator, root, field, from) => Task::Call(Request::Store {
            mutator,
            root,
            field,
            from,
        }),
        Form::Copy(mutator, to, from) => Task::Call(Request::Copy { mutator, to, from }),
        Form::Clear(mutator, root) => Task::Call(Request::Clear { mutator, root }),
        Form::Put(mutator, root, field, value) => Task::Call(Request::Put {
            mutator,
            root,
            field,
            value,
        }),
        Form::Get(mutator, root, field) => Task::Call(Request::Get {
            mutator,
            root,
            field,
        }),
        Form::Same(mutator, root, other) => Task::Call(Request::Same {
            mutator,
            root,
            other,
        }),
        Form::Shape(mutator, root) => Task::Call(Request::Shape { mutator, root }),
        Form::Check(mutator) => Task::Call(Request::Check { mutator }),
        Form::Leave(mutator) => Task::Call(Request::Leave { mutator }),
        Form::Enter(mutator) => Task::Call(Request::Enter { mutator }),
        Form::Start => Task::Start,
        Form::Step => Task::Step,
    }
}

// The reply that says an answer.
fn reply_of(answer: Result<Answer, Refusal>) -> Reply
    ensures { result ≡ reply_of (answer_of answer) }
{
    match answer {
        Ok(Answer::Done) => Reply::Ok,
        Ok(Answer::Number(value)) => Reply::OkOne(value),
        Ok(Answer::Same(same)) => {
            if same {
                Reply::OkOne(1)
            } else {
                Reply::OkOne(0)
            }
        }
        Ok(Answer::Shape(shape)) => Reply::OkTwo(shape.pointer_count, shape.value_count),
        Err(refusal) => Reply::No(refusal.number()),
    }
}

// The reply that says an answer of step.
fn step_reply(answer: Step) -> Reply
    ensures { result ≡ reply_of (step_answer_of answer) }
{
    match answer {
        Step::Waiting(mutators) => Reply::Waiting(mutators),
        Step::Moved => Reply::Moved,
        Step::Traced => Reply::Traced,
        Step::Swept(segment, freed) => Reply::Swept(segment, freed),
        Step::Done => Reply::Done,
        Step::Idle => Reply::Idle,
        Step::Refused(number) => Reply::No(number),
    }
}

// Carries a task out over the words of its heap.
fn run(g: Geometry, mem: &mut [u32], task: Task) -> Reply
    ensures { Ran task g mem.old result mem.new }
{
    match task {
        Task::Open(_) => reply_of(opening::open(g, mem)),
        Task::Call(request) => reply_of(perform::perform(g, mem, request)),
        Task::Start => reply_of(starting::start(g, mem)),
        Task::Step => step_reply(stepping::step(g, mem)),
    }
}

// How many segments the heap of a task has: an opening says it, and for another task the session does.
fn segments_for(session: Session, task: Task) -> usize
    ensures { result ≡ segments_for task session.segments }
{
    match task {
        Task::Open(segments) => segments as usize,
        Task::Call(_) => session.segments,
        Task::Start => session.segments,
        Task::Step => session.segments,
    }
}

fn one_or_two(n: usize) -> bool
    ensures { result ≡ one_or_two n }
{
    if n == 1 {
        return true;
    }
    n == 2
}

// Carries a task out over the first of the lent words, as many as its heap has, unless it has no heap.
fn carry_out(session: Session, mem: &mut [u32], task: Task) -> Said
    requires { length mem.old ≡ room_words }
    ensures { Carries task (record { segments = session.segments; words = mem.old }) result.reply (record { segments = result.session.segments; words = mem.new }) }
{
    let n = segments_for(session, task);
    if one_or_two(n) {
        let g = Geometry {
            segments: n,
            kib: layout::SMALL_KIB,
        };
        let end = layout::total_words(g);
        let reply = run(g, &mut mem[0..end], task);
        return Said {
            reply,
            session: Session { segments: n },
        };
    }
    Said {
        reply: Reply::No(1),
        session,
    }
}

// The reply to a line, without its line feed.
pub fn answer_line(session: Session, mem: &mut [u32; WORDS], line: &[u8]) -> Said
    ensures { Answers (record { segments = session.segments; words = mem.old }) line.now result.reply (record { segments = result.session.segments; words = mem.new }) }
{
    match bracket_forms::read_form(line) {
        Some(form) => carry_out(session, mem, task_of(form)),
        None => Said {
            reply: Reply::Bad,
            session,
        },
    }
}
