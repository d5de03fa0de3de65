// Size classes: the class of a record by its number of fields, and for each class the shape of a segment: its blocks, the
// levels of its bitmap and the words in each level. Both are read from constant tables, and proved by their rule.
#![tactic(auto)]

mod table;

ghost use Rattle.std.specs.Prelude.{◌≡◌, [], ◌-◌, ◌/◌, ◌%◌, ◌<◌, ◌≤◌, ltb, get_or, slice_get, Some, None};
ghost use Rattle.basics.specs.Pick.{pick};
ghost use Rattle.classes.specs.Class.{first_class, max_fields, IsClass, class_test, block_words, class_of};
ghost use Rattle.classes.specs.Record.{class_of_record};
ghost use Rattle.classes.specs.Shape.{segment_size, large_size, segment_shape};

use table::CLASSES;

pub const FIRST_CLASS: u32 = 3;

pub const CLASS_COUNT: u32 = 12;

// The most fields that a record has.
pub const MAX_FIELDS: u32 = 4095;

// The shape of a record: how many pointer fields and how many data fields it has (document 01: P links and N numbers).
#[derive(Clone, Copy, PartialEq, Eq, Debug)]
pub struct RecordShape {
    pub pointer_count: u32,
    pub value_count: u32,
}

// A segment of one class: its blocks, the levels of its bitmap, and the words in each level (0 for a level that is not there).
#[derive(Clone, Copy, PartialEq, Eq, Debug)]
pub struct SegmentShape {
    pub blocks: u32,
    pub levels: u32,
    pub words0: u32,
    pub words1: u32,
    pub words2: u32,
}

// The shape of a segment of so many blocks.
const OF_4096: SegmentShape = SegmentShape {
    blocks: 4096,
    levels: 3,
    words0: 128,
    words1: 4,
    words2: 1,
};

const OF_2048: SegmentShape = SegmentShape {
    blocks: 2048,
    levels: 3,
    words0: 64,
    words1: 2,
    words2: 1,
};

const OF_1024: SegmentShape = SegmentShape {
    blocks: 1024,
    levels: 2,
    words0: 32,
    words1: 1,
    words2: 0,
};

const OF_512: SegmentShape = SegmentShape {
    blocks: 512,
    levels: 2,
    words0: 16,
    words1: 1,
    words2: 0,
};

const OF_256: SegmentShape = SegmentShape {
    blocks: 256,
    levels: 2,
    words0: 8,
    words1: 1,
    words2: 0,
};

const OF_128: SegmentShape = SegmentShape {
    blocks: 128,
    levels: 2,
    words0: 4,
    words1: 1,
    words2: 0,
};

const OF_64: SegmentShape = SegmentShape {
    blocks: 64,
    levels: 2,
    words0: 2,
    words1: 1,
    words2: 0,
};

const OF_32: SegmentShape = SegmentShape {
    blocks: 32,
    levels: 1,
    words0: 1,
    words1: 0,
    words2: 0,
};

const OF_16: SegmentShape = SegmentShape {
    blocks: 16,
    levels: 1,
    words0: 1,
    words1: 0,
    words2: 0,
};

const OF_8: SegmentShape = SegmentShape {
    blocks: 8,
    levels: 1,
    words0: 1,
    words1: 0,
    words2: 0,
};

const OF_4: SegmentShape = SegmentShape {
    blocks: 4,
    levels: 1,
    words0: 1,
    words1: 0,
    words2: 0,
};

const OF_2: SegmentShape = SegmentShape {
    blocks: 2,
    levels: 1,
    words0: 1,
    words1: 0,
    words2: 0,
};

const OF_1: SegmentShape = SegmentShape {
    blocks: 1,
    levels: 1,
    words0: 1,
    words1: 0,
    words2: 0,
};

// The shape of a class in a segment of 16 KiB, indexed by the class less 3.
const SHAPES: [SegmentShape; 12] = [
    OF_2048, OF_1024, OF_512, OF_256, OF_128, OF_64, OF_32, OF_16, OF_8, OF_4, OF_2, OF_1,
];

// The same in a segment of 32 KiB: each class has twice the blocks.
const LARGE_SHAPES: [SegmentShape; 12] = [
    OF_4096, OF_2048, OF_1024, OF_512, OF_256, OF_128, OF_64, OF_32, OF_16, OF_8, OF_4, OF_2,
];

// Whether a number is a class's.
pub fn is_class(class: u32) -> bool
    ensures { result ≡ class_test class }
{
    FIRST_CLASS <= class && class < FIRST_CLASS + CLASS_COUNT
}

// The words of a block of a class; a word has 2^2 bytes.
pub fn block_words(class: u32) -> usize
    requires { IsClass class }
    ensures { result ≡ block_words class }
{
    1 << (class - 2)
}

// The entry of a table of 4,096 at a number: 32 rows of 128. The table is lent, so it is read where it lies; a read at an index that is no literal
// would copy a constant to the stack.
fn entry_at(table: &[[u8; 128]; 32], n: u32) -> u32
    requires { n < 4096 }
    ensures { result ≡ get_or (get_or table.now (n / 128) []) (n % 128) 0 }
{
    let n = n as usize;
    u32::from(table[n / 128][n % 128])
}

// The class of a record of so many pointer and data fields (document 01: links and numbers) together, no more than a record has: the table's entry.
pub fn class_of_few(fields: u32) -> u32
    requires { fields ≤ max_fields }
    ensures { Some result ≡ class_of fields }
{
    entry_at(&CLASSES, fields)
}

// The class of a record of any number of fields, or none: it has too many.
pub fn class_of(fields: u32) -> Option<u32>
    ensures { result ≡ class_of fields }
{
    if fields <= MAX_FIELDS {
        Some(class_of_few(fields))
    } else {
        None
    }
}

// The class of a record of a shape, or none: its counts may be any numbers.
pub fn class_of_record(shape: RecordShape) -> Option<u32>
    ensures { result ≡ class_of_record shape }
{
    class_of(shape.pointer_count.checked_add(shape.value_count)?)
}

// The shape of a class in a table of them: the entry at the class less 3. Any number may be asked for.
fn shape_of(shapes: &[SegmentShape; 12], class: u32) -> Option<SegmentShape>
    ensures { result ≡ pick (ltb class first_class) None (slice_get shapes.now (class - first_class)) }
{
    let k = class.checked_sub(FIRST_CLASS)?;
    shapes.get(k as usize).copied()
}

// The shape of a segment of 16 KiB of a class, or none: there is no such class.
pub fn segment_shape(class: u32) -> Option<SegmentShape>
    ensures { result ≡ segment_shape segment_size class }
{
    shape_of(&SHAPES, class)
}

// The same of 32 KiB.
pub fn large_shape(class: u32) -> Option<SegmentShape>
    ensures { result ≡ segment_shape large_size class }
{
    shape_of(&LARGE_SHAPES, class)
}
