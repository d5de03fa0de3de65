// The bracket program over whole cycles: garbage, cyclic garbage, the order of both kinds of stack, records made during a cycle, and records
// that the barrier alone keeps. docs/CASES.md says what each range of lines shows. What it must write is reckoned by hand from document 01's
// cycle, and by a program written from document 01 alone.
#![tactic(auto)]

fn main(rt: HostRuntime) {
    bracket_run::run(&rt);
}
