// The bracket program: a form a line in, a reply a line out (document 01, "The bracket program").
#![tactic(auto)]

fn main(rt: HostRuntime) {
    bracket_run::run(&rt);
}
