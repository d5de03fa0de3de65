// Further cases of the class finder, the class shapes, the search, the rebuild and the check, printed a line each. The expected
// output comes from a reckoning by plain lists of bits and document 01's tables.
#![tactic(auto)]

ghost use Rattle.std.specs.Prelude.{◌≡◌, ◌+◌, ◌≤◌, ◌<◌, length};
ghost use Rattle.words.specs.Levels.{words_for, tree_words};
ghost use Rattle.classes.specs.Class.{first_class};
ghost use Rattle.classes.specs.Shape.{segment_size, blocks_of, longest_of};

use bitmap_search::Torn;

// The word at which the mark words begin, behind the longest bitmap, and at which level 1 of that bitmap begins.
const MARKS: u32 = 67;

const LEVEL1: u32 = 64;

fn word(text: &[u8]) {
    io::write_all(1, text);
}

fn number(n: u32) {
    io::write_all(1, b" ");
    io::print_decimal(1, u64::from(n));
}

// The class of a record of so many fields.
fn class_line(fields: u32) {
    word(b"class");
    number(fields);
    let found = classes::class_of(fields);
    match found {
        Some(c) => number(c),
        None => word(b" too big"),
    }
    word(b"\n");
}

// The shape of a class: blocks, levels, and the words in each level.
fn shape_line(class: u32) {
    word(b"shape");
    number(class);
    let shaped = classes::segment_shape(class);
    match shaped {
        Some(shape) => {
            number(shape.blocks);
            number(shape.levels);
            number(shape.words0);
            number(shape.words1);
            number(shape.words2);
        }
        None => word(b" none"),
    }
    word(b"\n");
}

// The blocks of a class and the levels above level 0 of their bitmap; none where there is no such class.
#[derive(Clone, Copy)]
struct Space {
    blocks: u32,
    above: u32,
}

fn space_of(class: u32) -> Space
    ensures { (tree_words result.above result.blocks ≤ longest_of segment_size) × (words_for result.blocks ≤ longest_of segment_size) }
{
    let shaped = classes::segment_shape(class);
    match shaped {
        Some(shape) => Space {
            blocks: shape.blocks,
            above: shape.levels - 1,
        },
        None => Space {
            blocks: 0,
            above: 0,
        },
    }
}

// The first free block of a class at or after a place.
fn search_line(s: &[u32], class: u32, place: u32)
    requires { longest_of segment_size ≤ length s.now }
{
    word(b"search");
    number(class);
    number(place);
    let space = space_of(class);
    let found = bitmap_search::next_free(s, space.blocks, space.above, place);
    match found {
        Ok(Some(k)) => number(k),
        Ok(None) => word(b" none"),
        Err(Torn) => word(b" torn"),
    }
    word(b"\n");
}

// Whether the words are a tree of the class, and how many of its blocks' bits are 1.
fn check_line(s: &[u32], class: u32)
    requires { longest_of segment_size ≤ length s.now }
{
    word(b"check");
    number(class);
    let space = space_of(class);
    let ok = bitmap_check::is_tree(s, space.blocks, space.above);
    if ok {
        word(b" tree");
    } else {
        word(b" torn");
    }
    number(words::ones_among(s, space.blocks));
    word(b"\n");
}

// A fresh tree of the class.
fn freshen(s: &mut [u32], class: u32)
    requires { longest_of segment_size ≤ length s.old }
{
    let space = space_of(class);
    bitmap_write::make_fresh(s, space.blocks, space.above);
}

// A tree of the class whose blocks' bits are the mark words that stand behind the longest bitmap.
fn adopt(s: &mut [u32], class: u32)
    requires { longest_of segment_size + longest_of segment_size ≤ length s.old }
{
    let space = space_of(class);
    bitmap_write::adopt(s, MARKS as usize, space.blocks, 1, space.above);
}

// The class of the smallest and the largest record of each class, and none past the last.
fn class_cases() {
    for fields in [
        0, 1, 2, 3, 4, 7, 8, 15, 16, 31, 32, 63, 64, 127, 128, 255, 256, 511, 512, 1023, 1024,
        2047, 2048, 4095, 4096, 65536, 4294967295,
    ] {
        class_line(fields);
    }
}

fn shape_cases() {
    for class in 0..16 {
        shape_line(class);
    }
    shape_line(4294967295);
}

// A fresh tree of the first class: the first and the last block, the ends of a word, and places past the end.
fn fresh_cases(s: &mut [u32])
    requires { longest_of segment_size ≤ length s.old }
{
    freshen(s, 3);
    check_line(s, 3);
    for place in [0, 31, 32, 2047, 2048, 4294967295] {
        search_line(s, 3, place);
    }
}

// A tree of the first class with every block marked but one.
fn all_but(s: &mut [u32], block: u32)
    requires { (longest_of segment_size + longest_of segment_size ≤ length s.old) × (block < blocks_of segment_size first_class) }
{
    s.fill(4294967295);
    words::clear_bit(s, MARKS * 32 + block);
    adopt(s, 3);
}

// The free block is found in its own word and by way of one level.
fn near_cases(s: &mut [u32])
    requires { longest_of segment_size + longest_of segment_size ≤ length s.old }
{
    all_but(s, 1000);
    check_line(s, 3);
    for place in [0, 992, 1000, 1001, 2047] {
        search_line(s, 3, place);
    }
}

// The free block is found by way of two levels.
fn far_cases(s: &mut [u32])
    requires { longest_of segment_size + longest_of segment_size ≤ length s.old }
{
    all_but(s, 1500);
    check_line(s, 3);
    for place in [0, 1024, 1501] {
        search_line(s, 3, place);
    }
}

// A summary bit that lies: word 5 of level 0 is full, and its bit at level 1 says that it is not. From word 46 on the search does
// not meet it.
fn torn_cases(s: &mut [u32])
    requires { longest_of segment_size ≤ length s.old }
{
    words::clear_bit(s, LEVEL1 * 32 + 5);
    check_line(s, 3);
    for place in [0, 1472] {
        search_line(s, 3, place);
    }
}

// A level of half a word: its bits past the end are 1, and are no blocks.
fn short_cases(s: &mut [u32])
    requires { longest_of segment_size ≤ length s.old }
{
    freshen(s, 10);
    check_line(s, 10);
    for place in [15, 16] {
        search_line(s, 10, place);
    }
    words::set_bit(s, 15);
    search_line(s, 10, 15);
    words::clear_bit(s, 16);
    check_line(s, 10);
    search_line(s, 10, 15);
}

// A level of two blocks, and of one.
fn last_cases(s: &mut [u32])
    requires { longest_of segment_size ≤ length s.old }
{
    freshen(s, 13);
    check_line(s, 13);
    for place in [0, 1, 2] {
        search_line(s, 13, place);
    }
    freshen(s, 14);
    check_line(s, 14);
    for place in [0, 1] {
        search_line(s, 14, place);
    }
}

fn main() {
    let mut s = [0u32; 134];
    class_cases();
    shape_cases();
    fresh_cases(&mut s);
    near_cases(&mut s);
    far_cases(&mut s);
    torn_cases(&mut s);
    short_cases(&mut s);
    last_cases(&mut s);
}
