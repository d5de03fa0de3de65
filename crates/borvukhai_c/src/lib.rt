// The library's symbols for C: each export calls the function of crate borvukhai that has its name, and says what that one says.
#![tactic(auto)]

ghost use Rattle.std.specs.Prelude.{◌≡◌};
ghost use Rattle.theory.specs.Calls.{c_attach, c_spawn, c_detach, c_check, c_leave, c_enter, c_make, c_load, c_store, c_copy, c_clear, c_put, c_get, c_same, c_shape};
ghost use Rattle.layout.specs.Geometry.{layout_number, total, scratch_words, sheet_bytes};
ghost use Rattle.model.specs.Promise.{Promise, OpenPromise, StartPromise, StepPromise, PhasePromise, StatesPromise, SheetPromise, ExaminePromise};
ghost use Rattle.packing.specs.Packed.{geometry_of, length_for, states_words, unpack, unpack_number, unpack_same, unpack_shape, unpack_step, unpack_phase, unpack_examined};

#[unsafe(no_mangle)]
pub extern "C" fn borvukhai_layout() -> u32
    ensures { result ≡ layout_number }
{
    borvukhai::borvukhai_layout()
}

#[unsafe(no_mangle)]
pub extern "C" fn borvukhai_length(segments: u32, kib: u32) -> usize
    ensures { result ≡ length_for total segments kib }
{
    borvukhai::borvukhai_length(segments, kib)
}

#[unsafe(no_mangle)]
pub extern "C" fn borvukhai_states_length(segments: u32, kib: u32) -> usize
    ensures { result ≡ length_for states_words segments kib }
{
    borvukhai::borvukhai_states_length(segments, kib)
}

#[unsafe(no_mangle)]
pub extern "C" fn borvukhai_scratch_length(segments: u32, kib: u32) -> usize
    ensures { result ≡ length_for scratch_words segments kib }
{
    borvukhai::borvukhai_scratch_length(segments, kib)
}

#[unsafe(no_mangle)]
pub extern "C" fn borvukhai_sheet_length(segments: u32, kib: u32) -> usize
    ensures { result ≡ length_for sheet_bytes segments kib }
{
    borvukhai::borvukhai_sheet_length(segments, kib)
}

#[unsafe(no_mangle)]
pub extern "C" fn borvukhai_open(segments: u32, kib: u32, mem: &mut [u32]) -> u32
    ensures { OpenPromise (geometry_of segments kib) mem.old (unpack result) mem.new }
{
    borvukhai::borvukhai_open(segments, kib, mem)
}

#[unsafe(no_mangle)]
pub extern "C" fn borvukhai_attach(segments: u32, kib: u32, mem: &mut [u32], mutator: u32) -> u32
    ensures { Promise (c_attach mutator) (geometry_of segments kib) mem.old (unpack result) mem.new }
{
    borvukhai::borvukhai_attach(segments, kib, mem, mutator)
}

#[unsafe(no_mangle)]
pub extern "C" fn borvukhai_spawn(
    segments: u32,
    kib: u32,
    mem: &mut [u32],
    mutator: u32,
    parent: u32,
    root: u32,
) -> u32
    ensures { Promise (c_spawn mutator parent root) (geometry_of segments kib) mem.old (unpack result) mem.new }
{
    borvukhai::borvukhai_spawn(segments, kib, mem, mutator, parent, root)
}

#[unsafe(no_mangle)]
pub extern "C" fn borvukhai_detach(segments: u32, kib: u32, mem: &mut [u32], mutator: u32) -> u32
    ensures { Promise (c_detach mutator) (geometry_of segments kib) mem.old (unpack result) mem.new }
{
    borvukhai::borvukhai_detach(segments, kib, mem, mutator)
}

#[unsafe(no_mangle)]
pub extern "C" fn borvukhai_make(
    segments: u32,
    kib: u32,
    mem: &mut [u32],
    mutator: u32,
    to: u32,
    pointers: u32,
    values: u32,
) -> u32
    ensures { Promise (c_make mutator to pointers values) (geometry_of segments kib) mem.old (unpack result) mem.new }
{
    borvukhai::borvukhai_make(segments, kib, mem, mutator, to, pointers, values)
}

#[unsafe(no_mangle)]
pub extern "C" fn borvukhai_copy(
    segments: u32,
    kib: u32,
    mem: &mut [u32],
    mutator: u32,
    to: u32,
    from: u32,
) -> u32
    ensures { Promise (c_copy mutator to from) (geometry_of segments kib) mem.old (unpack result) mem.new }
{
    borvukhai::borvukhai_copy(segments, kib, mem, mutator, to, from)
}

#[unsafe(no_mangle)]
pub extern "C" fn borvukhai_clear(
    segments: u32,
    kib: u32,
    mem: &mut [u32],
    mutator: u32,
    to: u32,
) -> u32
    ensures { Promise (c_clear mutator to) (geometry_of segments kib) mem.old (unpack result) mem.new }
{
    borvukhai::borvukhai_clear(segments, kib, mem, mutator, to)
}

#[unsafe(no_mangle)]
pub extern "C" fn borvukhai_same(
    segments: u32,
    kib: u32,
    mem: &[u32],
    mutator: u32,
    root: u32,
    other: u32,
) -> u64
    ensures { Promise (c_same mutator root other) (geometry_of segments kib) mem.now (unpack_same result) mem.now }
{
    borvukhai::borvukhai_same(segments, kib, mem, mutator, root, other)
}

#[unsafe(no_mangle)]
pub extern "C" fn borvukhai_load(
    segments: u32,
    kib: u32,
    mem: &mut [u32],
    mutator: u32,
    to: u32,
    root: u32,
    field: u32,
) -> u32
    ensures { Promise (c_load mutator to root field) (geometry_of segments kib) mem.old (unpack result) mem.new }
{
    borvukhai::borvukhai_load(segments, kib, mem, mutator, to, root, field)
}

#[unsafe(no_mangle)]
pub extern "C" fn borvukhai_store(
    segments: u32,
    kib: u32,
    mem: &mut [u32],
    mutator: u32,
    root: u32,
    field: u32,
    from: u32,
) -> u32
    ensures { Promise (c_store mutator root field from) (geometry_of segments kib) mem.old (unpack result) mem.new }
{
    borvukhai::borvukhai_store(segments, kib, mem, mutator, root, field, from)
}

#[unsafe(no_mangle)]
pub extern "C" fn borvukhai_put(
    segments: u32,
    kib: u32,
    mem: &mut [u32],
    mutator: u32,
    root: u32,
    field: u32,
    value: u32,
) -> u32
    ensures { Promise (c_put mutator root field value) (geometry_of segments kib) mem.old (unpack result) mem.new }
{
    borvukhai::borvukhai_put(segments, kib, mem, mutator, root, field, value)
}

#[unsafe(no_mangle)]
pub extern "C" fn borvukhai_get(
    segments: u32,
    kib: u32,
    mem: &[u32],
    mutator: u32,
    root: u32,
    field: u32,
) -> u64
    ensures { Promise (c_get mutator root field) (geometry_of segments kib) mem.now (unpack_number result) mem.now }
{
    borvukhai::borvukhai_get(segments, kib, mem, mutator, root, field)
}

#[unsafe(no_mangle)]
pub extern "C" fn borvukhai_check(segments: u32, kib: u32, mem: &mut [u32], mutator: u32) -> u32
    ensures { Promise (c_check mutator) (geometry_of segments kib) mem.old (unpack result) mem.new }
{
    borvukhai::borvukhai_check(segments, kib, mem, mutator)
}

#[unsafe(no_mangle)]
pub extern "C" fn borvukhai_leave(segments: u32, kib: u32, mem: &mut [u32], mutator: u32) -> u32
    ensures { Promise (c_leave mutator) (geometry_of segments kib) mem.old (unpack result) mem.new }
{
    borvukhai::borvukhai_leave(segments, kib, mem, mutator)
}

#[unsafe(no_mangle)]
pub extern "C" fn borvukhai_enter(segments: u32, kib: u32, mem: &mut [u32], mutator: u32) -> u32
    ensures { Promise (c_enter mutator) (geometry_of segments kib) mem.old (unpack result) mem.new }
{
    borvukhai::borvukhai_enter(segments, kib, mem, mutator)
}

#[unsafe(no_mangle)]
pub extern "C" fn borvukhai_shape(
    segments: u32,
    kib: u32,
    mem: &[u32],
    mutator: u32,
    root: u32,
) -> u64
    ensures { Promise (c_shape mutator root) (geometry_of segments kib) mem.now (unpack_shape result) mem.now }
{
    borvukhai::borvukhai_shape(segments, kib, mem, mutator, root)
}

#[unsafe(no_mangle)]
pub extern "C" fn borvukhai_start(segments: u32, kib: u32, mem: &mut [u32]) -> u32
    ensures { StartPromise (geometry_of segments kib) mem.old (unpack result) mem.new }
{
    borvukhai::borvukhai_start(segments, kib, mem)
}

#[unsafe(no_mangle)]
pub extern "C" fn borvukhai_step(segments: u32, kib: u32, mem: &mut [u32]) -> u64
    ensures { StepPromise (geometry_of segments kib) mem.old (unpack_step result) mem.new }
{
    borvukhai::borvukhai_step(segments, kib, mem)
}

#[unsafe(no_mangle)]
pub extern "C" fn borvukhai_phase(segments: u32, kib: u32, mem: &[u32]) -> u64
    ensures { PhasePromise (geometry_of segments kib) mem.now (unpack_phase result) }
{
    borvukhai::borvukhai_phase(segments, kib, mem)
}

#[unsafe(no_mangle)]
pub extern "C" fn borvukhai_states(segments: u32, kib: u32, mem: &[u32], output: &mut [u32]) -> u32
    ensures { StatesPromise (geometry_of segments kib) mem.now output.old (unpack result) output.new }
{
    borvukhai::borvukhai_states(segments, kib, mem, output)
}

#[unsafe(no_mangle)]
pub extern "C" fn borvukhai_sheet(segments: u32, kib: u32, mem: &[u32], output: &mut [u8]) -> u32
    ensures { SheetPromise (geometry_of segments kib) mem.now output.old (unpack result) output.new }
{
    borvukhai::borvukhai_sheet(segments, kib, mem, output)
}

#[unsafe(no_mangle)]
pub extern "C" fn borvukhai_examine(
    segments: u32,
    kib: u32,
    mem: &[u32],
    scratch: &mut [u32],
) -> u64
    ensures { ExaminePromise (geometry_of segments kib) mem.now scratch.old (unpack_examined result) scratch.new }
{
    borvukhai::borvukhai_examine(segments, kib, mem, scratch)
}
