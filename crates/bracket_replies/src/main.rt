// Prints a reply of each kind, and those with the least and the greatest numbers. The stored output is document 01's right
// column where it has the reply, and by hand elsewhere.
#![tactic(auto)]

use bracket_forms::Reply;

fn show(reply: Reply) {
    let mut text = [0u8; 32];
    let n = bracket_forms::write_reply(reply, &mut text);
    io::write_all(1, &text[..n]);
    io::write_all(1, b"\n");
}

fn show_results() {
    for reply in [
        Reply::Ok,
        Reply::OkOne(77),
        Reply::OkTwo(1, 600),
        Reply::No(13),
        Reply::Bad,
    ] {
        show(reply);
    }
}

fn show_steps() {
    for reply in [
        Reply::Waiting(1),
        Reply::Moved,
        Reply::Traced,
        Reply::Swept(0, 1),
        Reply::Done,
        Reply::Idle,
    ] {
        show(reply);
    }
}

fn show_bounds() {
    for reply in [
        Reply::OkOne(0),
        Reply::OkOne(9),
        Reply::OkOne(10),
        Reply::OkOne(1000000000),
        Reply::Swept(4294967295, 4294967295),
    ] {
        show(reply);
    }
}

fn main() {
    show_results();
    show_steps();
    show_bounds();
}
