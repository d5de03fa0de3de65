// The bracket program over refusal 9, over starts while a segment is part, over starts with nothing full or part, over a list in which a start stands
// after every line, and over records of classes 13 and 14. docs/CASES.md says what each range of lines shows, and where its replies come from:
// reckoned by hand from document 01's table and cycle and requests Nos. 1, 2 and 5, or read against them.
#![tactic(auto)]

fn main(rt: HostRuntime) {
    bracket_run::run(&rt);
}
