// The bracket program over attach, spawn, detach, leave and enter in each phase: refused 11 in the two handshakes alone, a mutator outside
// answered for by step, and an acknowledgement that stays owed after enter. What it must write is reckoned by hand from document 01's cycle,
// and by a program written from document 01 alone.
#![tactic(auto)]

fn main(rt: HostRuntime) {
    bracket_run::run(&rt);
}
