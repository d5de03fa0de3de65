// The bracket program over a long run of random and adversarial lines: several openings, several mutators, many cycles. What it must write
// comes from a program written from document 01 alone.
#![tactic(auto)]

fn main(rt: HostRuntime) {
    bracket_run::run(&rt);
}
