// The heap for programs in C and Rust: every call and every look as a function over the lent slice, which crate borvukhai_c exports. An answer is
// packed in a number; `unpack` and its like in packing's specs say which answer a number stands for.
#![tactic(auto)]

ghost use Rattle.std.specs.Prelude.{◌≡◌};
ghost use Rattle.theory.specs.Calls.{c_attach, c_spawn, c_detach, c_check, c_leave, c_enter, c_make, c_load, c_store, c_copy, c_clear, c_put, c_get, c_same, c_shape};
ghost use Rattle.layout.specs.Geometry.{layout_number, total, scratch_words, sheet_bytes};
ghost use Rattle.model.specs.Promise.{Promise, OpenPromise, StartPromise, StepPromise, PhasePromise, StatesPromise, SheetPromise, ExaminePromise};
ghost use Rattle.packing.specs.Packed.{geometry_of, length_for, states_words, unpack, unpack_number, unpack_same, unpack_shape, unpack_step, unpack_phase, unpack_examined};

// The number of the layout of the lent words.
pub fn borvukhai_layout() -> u32
    ensures { result ≡ layout_number }
{
    layout::LAYOUT_NUMBER
}

// The words of the slice to lend for so many segments of so many KiB; 0 for a count that is not 1 to 256 and for a size that is neither 16 nor 32.
pub fn borvukhai_length(segments: u32, kib: u32) -> usize
    ensures { result ≡ length_for total segments kib }
{
    if packing::no_size(segments, kib) {
        return 0;
    }
    layout::total_words(packing::geometry(segments, kib))
}

// The words of the output of the look at the segments' states.
pub fn borvukhai_states_length(segments: u32, kib: u32) -> usize
    ensures { result ≡ length_for states_words segments kib }
{
    if packing::no_size(segments, kib) {
        return 0;
    }
    looks::states_words(packing::geometry(segments, kib))
}

// The words of the scratch of the examination.
pub fn borvukhai_scratch_length(segments: u32, kib: u32) -> usize
    ensures { result ≡ length_for scratch_words segments kib }
{
    if packing::no_size(segments, kib) {
        return 0;
    }
    examining::scratch_words(packing::geometry(segments, kib))
}

// The bytes of the output of the sheet.
pub fn borvukhai_sheet_length(segments: u32, kib: u32) -> usize
    ensures { result ≡ length_for sheet_bytes segments kib }
{
    if packing::no_size(segments, kib) {
        return 0;
    }
    sheet::sheet_bytes(packing::geometry(segments, kib))
}

pub fn borvukhai_open(segments: u32, kib: u32, mem: &mut [u32]) -> u32
    ensures { OpenPromise (geometry_of segments kib) mem.old (unpack result) mem.new }
{
    packing::packed(opening::open(packing::geometry(segments, kib), mem))
}

pub fn borvukhai_attach(segments: u32, kib: u32, mem: &mut [u32], mutator: u32) -> u32
    ensures { Promise (c_attach mutator) (geometry_of segments kib) mem.old (unpack result) mem.new }
{
    packing::packed(attaching::attach(packing::geometry(segments, kib), mem, mutator))
}

pub fn borvukhai_spawn(
    segments: u32,
    kib: u32,
    mem: &mut [u32],
    mutator: u32,
    parent: u32,
    root: u32,
) -> u32
    ensures { Promise (c_spawn mutator parent root) (geometry_of segments kib) mem.old (unpack result) mem.new }
{
    packing::packed(attaching::spawn(packing::geometry(segments, kib), mem, mutator, parent, root))
}

pub fn borvukhai_detach(segments: u32, kib: u32, mem: &mut [u32], mutator: u32) -> u32
    ensures { Promise (c_detach mutator) (geometry_of segments kib) mem.old (unpack result) mem.new }
{
    packing::packed(attaching::detach(packing::geometry(segments, kib), mem, mutator))
}

pub fn borvukhai_make(
    segments: u32,
    kib: u32,
    mem: &mut [u32],
    mutator: u32,
    to: u32,
    pointers: u32,
    values: u32,
) -> u32
    ensures { Promise (c_make mutator to pointers values) (geometry_of segments kib) mem.old (unpack result) mem.new }
{
    packing::packed(making::make(
        packing::geometry(segments, kib),
        mem,
        mutator,
        to,
        pointers,
        values,
    ))
}

pub fn borvukhai_copy(
    segments: u32,
    kib: u32,
    mem: &mut [u32],
    mutator: u32,
    to: u32,
    from: u32,
) -> u32
    ensures { Promise (c_copy mutator to from) (geometry_of segments kib) mem.old (unpack result) mem.new }
{
    packing::packed(root_calls::copy(packing::geometry(segments, kib), mem, mutator, to, from))
}

pub fn borvukhai_clear(segments: u32, kib: u32, mem: &mut [u32], mutator: u32, to: u32) -> u32
    ensures { Promise (c_clear mutator to) (geometry_of segments kib) mem.old (unpack result) mem.new }
{
    packing::packed(root_calls::clear(packing::geometry(segments, kib), mem, mutator, to))
}

pub fn borvukhai_same(
    segments: u32,
    kib: u32,
    mem: &[u32],
    mutator: u32,
    root: u32,
    other: u32,
) -> u64
    ensures { Promise (c_same mutator root other) (geometry_of segments kib) mem.now (unpack_same result) mem.now }
{
    packing::packed_value(root_calls::same(
        packing::geometry(segments, kib),
        mem,
        mutator,
        root,
        other,
    ))
}

pub fn borvukhai_load(
    segments: u32,
    kib: u32,
    mem: &mut [u32],
    mutator: u32,
    to: u32,
    root: u32,
    field: u32,
) -> u32
    ensures { Promise (c_load mutator to root field) (geometry_of segments kib) mem.old (unpack result) mem.new }
{
    packing::packed(field_calls::load(
        packing::geometry(segments, kib),
        mem,
        mutator,
        to,
        root,
        field,
    ))
}

pub fn borvukhai_store(
    segments: u32,
    kib: u32,
    mem: &mut [u32],
    mutator: u32,
    root: u32,
    field: u32,
    from: u32,
) -> u32
    ensures { Promise (c_store mutator root field from) (geometry_of segments kib) mem.old (unpack result) mem.new }
{
    packing::packed(storing::store(
        packing::geometry(segments, kib),
        mem,
        mutator,
        root,
        field,
        from,
    ))
}

pub fn borvukhai_put(
    segments: u32,
    kib: u32,
    mem: &mut [u32],
    mutator: u32,
    root: u32,
    field: u32,
    value: u32,
) -> u32
    ensures { Promise (c_put mutator root field value) (geometry_of segments kib) mem.old (unpack result) mem.new }
{
    packing::packed(field_calls::put(
        packing::geometry(segments, kib),
        mem,
        mutator,
        root,
        field,
        value,
    ))
}

pub fn borvukhai_get(
    segments: u32,
    kib: u32,
    mem: &[u32],
    mutator: u32,
    root: u32,
    field: u32,
) -> u64
    ensures { Promise (c_get mutator root field) (geometry_of segments kib) mem.now (unpack_number result) mem.now }
{
    packing::packed_value(field_calls::get(
        packing::geometry(segments, kib),
        mem,
        mutator,
        root,
        field,
    ))
}

pub fn borvukhai_check(segments: u32, kib: u32, mem: &mut [u32], mutator: u32) -> u32
    ensures { Promise (c_check mutator) (geometry_of segments kib) mem.old (unpack result) mem.new }
{
    packing::packed(handshake_calls::check(packing::geometry(segments, kib), mem, mutator))
}

pub fn borvukhai_leave(segments: u32, kib: u32, mem: &mut [u32], mutator: u32) -> u32
    ensures { Promise (c_leave mutator) (geometry_of segments kib) mem.old (unpack result) mem.new }
{
    packing::packed(handshake_calls::leave(packing::geometry(segments, kib), mem, mutator))
}

pub fn borvukhai_enter(segments: u32, kib: u32, mem: &mut [u32], mutator: u32) -> u32
    ensures { Promise (c_enter mutator) (geometry_of segments kib) mem.old (unpack result) mem.new }
{
    packing::packed(handshake_calls::enter(packing::geometry(segments, kib), mem, mutator))
}

pub fn borvukhai_shape(segments: u32, kib: u32, mem: &[u32], mutator: u32, root: u32) -> u64
    ensures { Promise (c_shape mutator root) (geometry_of segments kib) mem.now (unpack_shape result) mem.now }
{
    packing::packed_value(field_calls::shape(packing::geometry(segments, kib), mem, mutator, root))
}

pub fn borvukhai_start(segments: u32, kib: u32, mem: &mut [u32]) -> u32
    ensures { StartPromise (geometry_of segments kib) mem.old (unpack result) mem.new }
{
    packing::packed(starting::start(packing::geometry(segments, kib), mem))
}

pub fn borvukhai_step(segments: u32, kib: u32, mem: &mut [u32]) -> u64
    ensures { StepPromise (geometry_of segments kib) mem.old (unpack_step result) mem.new }
{
    packing::packed_step(stepping::step(packing::geometry(segments, kib), mem))
}

pub fn borvukhai_phase(segments: u32, kib: u32, mem: &[u32]) -> u64
    ensures { PhasePromise (geometry_of segments kib) mem.now (unpack_phase result) }
{
    packing::packed_phase(looks::phase(packing::geometry(segments, kib), mem))
}

pub fn borvukhai_states(segments: u32, kib: u32, mem: &[u32], output: &mut [u32]) -> u32
    ensures { StatesPromise (geometry_of segments kib) mem.now output.old (unpack result) output.new }
{
    packing::packed(looks::states(packing::geometry(segments, kib), mem, output))
}

pub fn borvukhai_sheet(segments: u32, kib: u32, mem: &[u32], output: &mut [u8]) -> u32
    ensures { SheetPromise (geometry_of segments kib) mem.now output.old (unpack result) output.new }
{
    packing::packed(sheet::sheet(packing::geometry(segments, kib), mem, output))
}

pub fn borvukhai_examine(segments: u32, kib: u32, mem: &[u32], scratch: &mut [u32]) -> u64
    ensures { ExaminePromise (geometry_of segments kib) mem.now scratch.old (unpack_examined result) scratch.new }
{
    packing::packed_examined(examining::examine(packing::geometry(segments, kib), mem, scratch))
}
