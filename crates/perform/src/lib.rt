// One dispatcher for the mutators' calls: a request is a call with its arguments, and what it is answered is what that call answers. It has no
// `requires` and keeps the promise of the call that the request stands for. The opening, start, step and the looks
// stay outside.
#![tactic(auto)]

ghost use Rattle.model.specs.Promise.{Promise};
ghost use Rattle.perform.specs.Requests.{call_of};

use layout::Geometry;
use model::{Answer, Refusal};

// A mutator's call with its arguments (document 01, "Scripts").
#[derive(Clone, Copy)]
pub enum Request {
    Attach {
        mutator: u32,
    },
    Spawn {
        new: u32,
        parent: u32,
        root: u32,
    },
    Detach {
        mutator: u32,
    },
    Check {
        mutator: u32,
    },
    Leave {
        mutator: u32,
    },
    Enter {
        mutator: u32,
    },
    Make {
        mutator: u32,
        root: u32,
        pointers: u32,
        values: u32,
    },
    Load {
        mutator: u32,
        to: u32,
        root: u32,
        field: u32,
    },
    Store {
        mutator: u32,
        root: u32,
        field: u32,
        from: u32,
    },
    Copy {
        mutator: u32,
        to: u32,
        from: u32,
    },
    Clear {
        mutator: u32,
        root: u32,
    },
    Put {
        mutator: u32,
        root: u32,
        field: u32,
        value: u32,
    },
    Get {
        mutator: u32,
        root: u32,
        field: u32,
    },
    Same {
        mutator: u32,
        root: u32,
        other: u32,
    },
    Shape {
        mutator: u32,
        root: u32,
    },
}

// The call that a request stands for.
pub fn perform(g: Geometry, mem: &mut [u32], request: Request) -> Result<Answer, Refusal>
    ensures { Promise (call_of request) g mem.old result mem.new }
{
    match request {
        Request::Attach { mutator } => attaching::attach(g, mem, mutator),
        Request::Spawn { new, parent, root } => attaching::spawn(g, mem, new, parent, root),
        Request::Detach { mutator } => attaching::detach(g, mem, mutator),
        Request::Check { mutator } => handshake_calls::check(g, mem, mutator),
        Request::Leave { mutator } => handshake_calls::leave(g, mem, mutator),
        Request::Enter { mutator } => handshake_calls::enter(g, mem, mutator),
        Request::Make {
            mutator,
            root,
            pointers,
            values,
        } => making::make(g, mem, mutator, root, pointers, values),
        Request::Load {
            mutator,
            to,
            root,
            field,
        } => field_calls::load(g, mem, mutator, to, root, field),
        Request::Store {
            mutator,
            root,
            field,
            from,
        } => storing::store(g, mem, mutator, root, field, from),
        Request::Copy { mutator, to, from } => root_calls::copy(g, mem, mutator, to, from),
        Request::Clear { mutator, root } => root_calls::clear(g, mem, mutator, root),
        Request::Put {
            mutator,
            root,
            field,
            value,
        } => field_calls::put(g, mem, mutator, root, field, value),
        Request::Get {
            mutator,
            root,
            field,
        } => field_calls::get(g, mem, mutator, root, field),
        Request::Same {
            mutator,
            root,
            other,
        } => root_calls::same(g, mem, mutator, root, other),
        Request::Shape { mutator, root } => field_calls::shape(g, mem, mutator, root),
    }
}
