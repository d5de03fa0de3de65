// The search for a free block: a bit pointer climbs the bitmap tree one level where the rest of a word is full, and comes
// back down to the block. It is safe over words of any content, and finds what a plain scan finds in a consistent tree.
#![tactic(auto)]

ghost use Rattle.std.specs.Prelude.{◌≡◌, ◌+◌, ◌-◌, ◌/◌, ◌^◌, ◌≤◌, ◌<◌, length, Ok, Some};
ghost use Rattle.words.specs.Levels.{words_for, tree_words};
ghost use Rattle.bitmap_search.specs.Pointer.{pos_at, with_pos, aimed, index_of, pos_of, ptr_to};
ghost use Rattle.bitmap_search.specs.Search.{climbed, lowered, some_next, next_of, forwarded, block_at, SearchPromise};
ghost use Rattle.bitmap_search.specs.Twice.{and_after, reached, OwnPromise, NearPromise, TwoPromise};

use words::{clear_after, clear_from, two_clear, words_for};

// The words are no bitmap tree.
#[derive(Clone, Copy)]
pub struct Torn;

// The next free block, where another remains after it; the last one; none; no bitmap tree.
// Kept: four answers by name are plainer than a Result of an Option of a block and whether another remains.
#[derive(Drop)]
pub enum Two {
    More(u32),
    Last(u32),
    Nothing,
    Torn,
}

// A bit of one level: its word, and which bit of the word it is.
#[derive(Clone, Copy)]
pub struct BitPos {
    pub word: u32,
    pub bit: u32,
}

// A bit pointer: a word and a bit at each level.
#[derive(Clone, Copy)]
pub struct BitPtr {
    pub low: BitPos,
    pub mid: BitPos,
    pub high: BitPos,
}

// What a move of a bit pointer comes to: the next pointer, no free bit, or words that are no bitmap tree.
// Kept: three cases by one tag. A Result of an Option has two, and packs the position that it hands on: a make that finds the last block by the levels
// above then takes 25 instructions more and misses its limit (docs/BENCH.md).
#[derive(Drop)]
pub enum Next {
    At(BitPtr),
    Nothing,
    Torn,
}

impl BitPos {
    // The position of a bit of a level, counted from the level's first.
    pub fn of(index: u32) -> Self
        ensures { result ≡ pos_of index }
    {
        Self {
            word: index / 32,
            bit: index % 32,
        }
    }

    pub fn index(self) -> u32
        requires { index_of self < 2 ^ 32 }
        ensures { result ≡ index_of self }
    {
        self.word * 32 + self.bit
    }
}

impl BitPtr {
    // The pointer to a block, and to the bits above it.
    pub fn to(block: u32) -> Self
        ensures { result ≡ ptr_to block }
    {
        let up = block / 32;
        Self {
            low: BitPos::of(block),
            mid: BitPos::of(up),
            high: BitPos::of(up / 32),
        }
    }

    pub fn at(self, level: u32) -> BitPos
        ensures { result ≡ pos_at self level }
    {
        match level {
            0 => self.low,
            1 => self.mid,
            _ => self.high,
        }
    }

    // The pointer with another position at one level.
    pub fn with(self, level: u32, at: BitPos) -> Self
        ensures { result ≡ with_pos self level at }
    {
        let low = self.low;
        let mid = self.mid;
        let high = self.high;
        match level {
            0 => Self {
                low: at,
                mid: mid,
                high: high,
            },
            1 => Self {
                low: low,
                mid: at,
                high: high,
            },
            _ => Self {
                low: low,
                mid: mid,
                high: at,
            },
        }
    }

    // The pointer with another bit at one level, and the bits above that one.
    pub fn aim(self, level: u32, index: u32) -> Self
        ensures { result ≡ aimed self level index }
    {
        let low = self.low;
        let mid = self.mid;
        match level {
            0 => Self::to(index),
            1 => Self {
                low: low,
                mid: BitPos::of(index),
                high: BitPos::of(index / 32),
            },
            _ => Self {
                low: low,
                mid: mid,
                high: BitPos::of(index),
            },
        }
    }

    // One level up, to the bit of the next word.
    fn climb(self, level: u32) -> Self
        requires { ((pos_at self level).word + 1 < 2 ^ 32) × (level + 1 < 2 ^ 32) }
        ensures { result ≡ climbed self level }
    {
        let at = self.at(level);
        self.aim(level + 1, at.word + 1)
    }

    // One level down, to the lowest clear bit of the word that the bit stands for. Torn where there is no such word or bit.
    fn descend(self, s: &[u32], words: u32, level: u32) -> Next
        requires words_in_bounds { (words ≤ length s.now) × (level + 1 < 2 ^ 32) }
        requires level_bound { index_of (pos_at self (level + 1)) < 2 ^ 32 }
        ensures { next_of result ≡ some_next (lowered s.now words self level) }
    {
        let up = self.at(level + 1);
        let word = up.index();
        if words <= word {
            return Next::Torn;
        }
        let bit = clear_from(s[word as usize], 0);
        if bit < 32 {
            return Next::At(self.with(level, BitPos { word, bit }));
        }
        Next::Torn
    }

    // The next free bit of a level of n bits at or after the pointer's bit there: in its word, or by way of the levels above.
    // The slice holds this level and those above it.
    fn forward(self, s: &[u32], n: u32, above: u32, level: u32) -> Next
        requires n_in_bounds { (tree_words above n ≤ length s.now) × (level + above < 2 ^ 32) }
        requires level_bound { (pos_at self level).bit < 32 }
        ensures { next_of result ≡ forwarded above s.now n self level }
    {
        let at = self.at(level);
        let word = at.word;
        let words = words_for(n);
        if words <= word {
            return Next::Nothing;
        }
        let bit = clear_from(s[word as usize], at.bit);
        if bit < 32 {
            return Next::At(self.with(level, BitPos { word, bit }));
        }
        if above == 0 {
            return Next::Nothing;
        }
        let up = self.climb(level);
        match up.forward(&s[words as usize..], words, above - 1, level + 1) {
            Next::At(q) => q.descend(s, words, level),
            Next::Nothing => Next::Nothing,
            Next::Torn => Next::Torn,
        }
    }

    // What `forward` finds at level 0, where a search begins.
    // Kept: `forward` again, in one text, so that a block in the pointer's own word needs no call.
    fn forward_first(self, s: &[u32], n: u32, above: u32) -> Next
        requires { (tree_words above n ≤ length s.now) × (self.low.bit < 32) }
        ensures { next_of result ≡ forwarded above s.now n self 0 }
    {
        let word = self.low.word;
        let words = words_for(n);
        if words <= word {
            return Next::Nothing;
        }
        let bit = clear_from(s[word as usize], self.low.bit);
        if bit < 32 {
            return Next::At(self.with(0, BitPos { word, bit }));
        }
        if above == 0 {
            return Next::Nothing;
        }
        let up = self.climb(0);
        match up.forward(&s[words as usize..], words, above - 1, 1) {
            Next::At(q) => q.descend(s, words, 0),
            Next::Nothing => Next::Nothing,
            Next::Torn => Next::Torn,
        }
    }

    // The pointer's block, if it is one of n, and whether another remains after it: in its word, else by the search from just after. After the
    // last block of whole words there is nothing to search.
    fn remaining(self, s: &[u32], n: u32, above: u32) -> Two
        requires { (tree_words above n ≤ length s.now) × (index_of self.low < 2 ^ 32) }
        ensures { result ≡ and_after (reached above s.now n) (block_at n (Ok (Some self))) }
    {
        let b = self.low.index();
        if n <= b {
            return Two::Torn;
        }
        if clear_after(s[(b / 32) as usize], b % 32) {
            return Two::More(b);
        }
        let next = b + 1;
        if next == n && n % 32 == 0 {
            return Two::Last(b);
        }
        match Self::to(next).forward(s, n, above, 0) {
            Next::At(_) => Two::More(b),
            Next::Nothing => Two::Last(b),
            Next::Torn => Two::Torn,
        }
    }

    // The next free block of n at or after the pointer's, and whether another remains after it, by the search.
    fn search_two(self, s: &[u32], n: u32, above: u32) -> Two
        requires { (tree_words above n ≤ length s.now) × (self.low.bit < 32) }
        ensures { result ≡ and_after (reached above s.now n) (block_at n (forwarded above s.now n self 0)) }
    {
        match self.forward_first(s, n, above) {
            Next::At(q) => q.remaining(s, n, above),
            Next::Nothing => Two::Nothing,
            Next::Torn => Two::Torn,
        }
    }
}

// The first free block of n at or after a place, where the slice holds a bitmap tree of n bits with so many levels above
// level 0. Whatever it holds, a block that is found is one of the n.
pub fn next_free(s: &[u32], n: u32, above: u32, place: u32) -> Result<Option<u32>, Torn>
    requires { tree_words above n ≤ length s.now }
    ensures { SearchPromise above s.now n place result }
{
    match BitPtr::to(place).forward(s, n, above, 0) {
        Next::At(q) => {
            let k = q.at(0).index();
            if k < n { Ok(Some(k)) } else { Err(Torn) }
        }
        Next::Nothing => Ok(None),
        Next::Torn => Err(Torn),
    }
}

// The next free block at or after a place, where the place's own word has it and another clear bit after it, whatever the number of blocks.
// None: the word does not tell.
pub fn more_in_word(s: &[u32], place: u32) -> Option<u32>
    requires { place / 32 < length s.now }
    ensures { OwnPromise s.now place result }
{
    let w = s[(place / 32) as usize];
    if two_clear(w, place % 32) {
        return Some(place / 32 * 32 + clear_from(w, place % 32));
    }
    None
}

// The next free block of n at or after a place, where the place's own word has it and the next word is not all ones.
// None: the words do not tell.
pub fn more_in_next(s: &[u32], n: u32, place: u32) -> Option<u32>
    requires { words_for n ≤ length s.now }
    ensures { NearPromise s.now n place result }
{
    let word = place / 32;
    if place < n && word < (n - 1) / 32 {
        let i = word as usize;
        let bit = clear_from(s[i], place % 32);
        if bit < 32 && s[i + 1] != u32::MAX {
            return Some(word * 32 + bit);
        }
    }
    None
}

// The next free block of n at or after a place, and whether another remains after it, by the search.
pub fn next_two(s: &[u32], n: u32, above: u32, place: u32) -> Two
    requires { tree_words above n ≤ length s.now }
    ensures { TwoPromise above s.now n place result }
{
    BitPtr::to(place).search_two(s, n, above)
}
