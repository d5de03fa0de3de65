// The bracket program over lines that are refused or malformed: each number of document 01's table but 9 and 13, and but 12, which no call
// gives any more; the lowest one where several apply, before an opening and after one. What it must write is reckoned by hand from the table,
// and by a program written from document 01 alone.
#![tactic(auto)]

fn main(rt: HostRuntime) {
    bracket_run::run(&rt);
}
