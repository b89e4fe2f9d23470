// The sums and the parities of 32 lanes at once, worked out over stored words where they lie.
// A block is rows 1 to 3, groups of four rows, and the last: the columns give the last two binary digits of a row's number, the groups those before.
#![tactic(auto)]

ghost use Rattle.std.specs.Prelude.{◌≡◌, ◌+◌, ◌<◌, length, get_or, set};
ghost use Rattle.shape.specs.declared.Shape.TheVariants.{One, Two};
ghost use Rattle.ground.specs.Stores.{stores};
ghost use Rattle.stored.specs.Stored.{complemented};
ghost use Rattle.sums.specs.Sums.{lying, sums_of, any_of, Looks};
ghost use Rattle.sums.specs.Inner.{Kept, eight_of, high_digits, three_of, four_of};
ghost use Rattle.sums.specs.Inner.{column_from, column_of, in_column, laid, tabled, endings_of, across_of};

use layout::Site;
use shape::{MOST_ROWS, Shape, rows, rows_before};
use stored::ONES;

// How many binary digits a lane's sum has.
pub const DIGITS: usize = 7;

// A word for each digit of the lanes' sums, and last the word of their parities.
pub const SUM_WORDS: usize = DIGITS + 1;

// The sums and the parities of 32 lanes.
#[derive(Clone, Copy, Debug, PartialEq, Eq)]
pub struct Sums {
    pub words: [u32; SUM_WORDS],
}

// The sums of a block that is clean.
pub const NO_SUMS: Sums = Sums {
    words: [0; SUM_WORDS],
};

// What a look finds of a block.
#[derive(Clone, Copy, Debug, PartialEq, Eq)]
pub enum Finding {
    // Every lane is valid.
    Clean,
    // A lane is in doubt: the sums are kept.
    Doubt,
    // A row is missing.
    Missing,
}

impl Sums {
    // The lanes with a sum.
    #[tactic(auto, unfolding(crate::specs::Sums::any_of))]
    pub fn any(&self) -> u32
        ensures { result ≡ any_of 7 self.now.words }
    {
        let w = self.words;
        let low = w[0] | w[1] | w[2] | w[3];
        low | w[4] | w[5] | w[6]
    }

    // The lanes with an odd count of ones.
    pub fn odd(&self) -> u32
        ensures { result ≡ get_or self.now.words 7 0 }
    {
        self.words[DIGITS]
    }

    // The lanes that are not valid: odd, or with a sum.
    #[tactic(auto, unfolding(crate::specs::Sums::any_of))]
    pub fn lanes(&self) -> u32
        ensures { result ≡ any_of 8 self.now.words }
    {
        self.any() | self.odd()
    }

    // What is found of a block with these sums; they are kept where a lane is in doubt.
    // Kept in what is lent: told as a value, in five forms, a clean visit took 39 to 60 instructions more, and at s = 6 it has 22 to its bar of 1.8.
    fn keep(self, sums: &mut Sums) -> Finding
        ensures { Kept self.words result sums.old.words sums.new.words }
    {
        if self.lanes() == 0 {
            return Finding::Clean;
        }
        *sums = self;
        Finding::Doubt
    }
}

// The rows of a block by how their numbers end in binary.
#[derive(Clone, Copy)]
struct Endings {
    e00: u32,
    e01: u32,
    e10: u32,
    e11: u32,
}

// The eight words of the code's block, from stored rows by how they end, digit 2, and digits 3 to 6.
// Rows 1 and 2 are stored complemented: that changes digits 0 and 1 of every sum, and no parity.
fn eight(ends: Endings, d2: u32, high: [u32; 4]) -> Sums
    ensures { result.words ≡ eight_of ends d2 high }
{
    let d0 = ends.e01 ^ ends.e11;
    let d1 = ends.e10 ^ ends.e11;
    Sums {
        words: [
            d0 ^ ONES,
            d1 ^ ONES,
            d2,
            high[0],
            high[1],
            high[2],
            high[3],
            d0 ^ ends.e00 ^ ends.e10,
        ],
    }
}

// Digits 3 to 6 of the sums, where `upto[q]` is the exclusive or of rows 1 to 4 q + 3.
fn high_digits(shape: Shape, upto: &[u32; 18]) -> [u32; 4]
    ensures { result ≡ high_digits shape upto.now }
{
    match shape {
        Shape::One => [upto[1] ^ upto[3], 0, 0, 0],
        Shape::Two => {
            let d5 = upto[7] ^ upto[15];
            let d4 = upto[3] ^ upto[11] ^ d5;
            let d3 = upto[1] ^ upto[5] ^ upto[9] ^ upto[13] ^ d4;
            [d3, d4, d5, upto[15] ^ upto[17]]
        }
    }
}

// The sums of a block of either shape, its rows s apart: four rows a turn.
// Inlined, so that each shape has a body of its own, and shape 1 with neighbouring rows another.
#[inline(always)]
fn sums_apart(site: Site, words: &[u32], sums: &mut Sums) -> Finding
    ensures { Looks site.shape words.now site.at site.s sums.old.words result sums.new.words }
{
    let Site { shape, at, s } = site;
    let step = s as usize;
    let mut i = at as usize;
    if words.len() <= i + rows_before(shape) * step {
        return Finding::Missing;
    }
    let turns = rows(shape) / 4;
    let mut upto = [0u32; 18];
    let mut ending_00: u32 = 0;
    let mut ending_01: u32 = 0;
    let mut ending_10: u32 = 0;
    let mut ending_11: u32 = 0;
    let mut d2: u32 = 0;
    // By place: a turn takes four rows s apart, which no iterator over a slice gives.
    for q in 0..turns {
        ending_01 ^= words[i];
        ending_10 ^= words[i + step];
        ending_11 ^= words[i + 2 * step];
        let all = ending_00 ^ ending_01 ^ ending_10 ^ ending_11;
        upto[q] = all;
        d2 ^= all;
        ending_00 ^= words[i + 3 * step];
        i += 4 * step;
    }
    let ends = Endings {
        e00: ending_00,
        e01: ending_01,
        e10: ending_10,
        e11: ending_11,
    };
    eight(ends, d2, high_digits(shape, &upto)).keep(sums)
}

// The same, by a body for each shape: a clean visit at s = 6 takes 33 to 55 instructions less, and by one body misses its bar of 1.8.
fn look_apart(site: Site, words: &[u32], sums: &mut Sums) -> Finding
    ensures { Looks site.shape words.now site.at site.s sums.old.words result sums.new.words }
{
    match site.shape {
        Shape::One => sums_apart(
            Site {
                shape: Shape::One,
                ..site
            },
            words,
            sums,
        ),
        Shape::Two => sums_apart(
            Site {
                shape: Shape::Two,
                ..site
            },
            words,
            sums,
        ),
    }
}

// The same, of a block of shape 1 whose rows are neighbours.
fn look_one(words: &[u32], at: u32, sums: &mut Sums) -> Finding
    ensures { Looks One words.now at 1 sums.old.words result sums.new.words }
{
    let shape = Shape::One;
    sums_apart(Site { shape, at, s: 1 }, words, sums)
}

// Three or four groups of one column that follow each other: those whose number ends in 1, those whose number ends in 10 or 11, and all.
#[derive(Clone, Copy)]
struct Running {
    low: u32,
    high: u32,
    all: u32,
}

// What a column gives: digits 2 to 6 of the sums, and the whole.
#[derive(Clone, Copy)]
struct Column {
    d2: u32,
    d3: u32,
    d4: u32,
    d5: u32,
    d6: u32,
    all: u32,
}

// Groups 4 m + 1 to 4 m + 3 of column c, each from the place of its first row on.
fn three(words: &[u32], i1: usize, i2: usize, i3: usize, c: usize) -> Running
    requires { (i1 + c < length words.now) × (i2 + c < length words.now) × (i3 + c < length words.now) }
    ensures { result ≡ three_of (get_or words.now (i1 + c) 0) (get_or words.now (i2 + c) 0) (get_or words.now (i3 + c) 0) }
{
    let x1 = words[i1 + c];
    let x2 = words[i2 + c];
    let x3 = words[i3 + c];
    let high = x2 ^ x3;
    Running {
        low: x1 ^ x3,
        high,
        all: x1 ^ high,
    }
}

// Group 4 m of column c, from its place on, with the three that come after it.
fn four(words: &[u32], i0: usize, c: usize, rest: Running) -> Running
    requires { i0 + c < length words.now }
    ensures { result ≡ four_of (get_or words.now (i0 + c) 0) rest }
{
    Running {
        low: rest.low,
        high: rest.high,
        all: words[i0 + c] ^ rest.all,
    }
}

// Groups 1 to 17 of a column: 1 to 3, 4 to 7, 8 to 11, 12 to 15, 16 and 17.
fn folded(
    from_1: Running,
    from_4: Running,
    from_8: Running,
    from_12: Running,
    x16: u32,
    x17: u32,
) -> Column
    ensures { result ≡ column_from from_1 from_4 from_8 from_12 x16 x17 }
{
    let d4 = from_4.all ^ from_12.all;
    let d6 = x16 ^ x17;
    Column {
        d2: from_1.low ^ from_4.low ^ from_8.low ^ from_12.low ^ x17,
        d3: from_1.high ^ from_4.high ^ from_8.high ^ from_12.high,
        d4,
        d5: from_8.all ^ from_12.all,
        d6,
        all: from_1.all ^ from_8.all ^ d4 ^ d6,
    }
}

// A column put in its place.
fn lay(found: Column, c: usize, table: &mut [u32; 16], top: &mut [u32; 4], all: &mut [u32; 4])
    requires { c < 4 }
    ensures table { table.new ≡ laid table.old c found }
    ensures top { top.new ≡ set top.old c found.d6 }
    ensures all { all.new ≡ set all.old c found.all }
{
    table[4 * c] = found.d2;
    table[4 * c + 1] = found.d3;
    table[4 * c + 2] = found.d4;
    table[4 * c + 3] = found.d5;
    top[c] = found.d6;
    all[c] = found.all;
}

// Groups 1 to 17 of shape 2, by column: digits 2 to 5 of the sums, digit 6, and the whole column. A reference to an array tells a proof no length.
// Each place is written out, so that the compiler takes the four columns at once; a shorter body is unrolled, and a visit takes two and a half times as long.
fn columns(words: &[u32], at: usize, table: &mut [u32; 16], top: &mut [u32; 4], all: &mut [u32; 4])
    requires { at + 70 < length words.now }
    ensures table { table.new ≡ tabled table.old (λ c. column_of (in_column words.now at c)) 4 }
    ensures top { top.new ≡ stores top.old (λ c. c) (λ c. (column_of (in_column words.now at c)).d6) 4 }
    ensures all { all.new ≡ stores all.old (λ c. c) (λ c. (column_of (in_column words.now at c)).all) 4 }
{
    for c in 0..4 {
        let from_1 = three(&*words, at + 3, at + 7, at + 11, c);
        let from_5 = three(&*words, at + 19, at + 23, at + 27, c);
        let from_4 = four(&*words, at + 15, c, from_5);
        let from_9 = three(&*words, at + 35, at + 39, at + 43, c);
        let from_8 = four(&*words, at + 31, c, from_9);
        let from_13 = three(&*words, at + 51, at + 55, at + 59, c);
        let from_12 = four(&*words, at + 47, c, from_13);
        let x16 = words[at + 63 + c];
        let x17 = words[at + 67 + c];
        let found = folded(from_1, from_4, from_8, from_12, x16, x17);
        lay(found, c, table, top, all);
    }
}

// What the four columns have at k, together.
fn across(table: &[u32; 16], k: usize) -> u32
    requires { k < 4 }
    ensures { result ≡ across_of table.now k }
{
    table[k] ^ table[k + 4] ^ table[k + 8] ^ table[k + 12]
}

// Rows 1 to 3 and the last, each with the column that ends as it does.
fn with_ends(words: &[u32], at: usize, all: &[u32; 4]) -> Endings
    requires { at + 71 < length words.now }
    ensures { result ≡ endings_of words.now at all.now }
{
    Endings {
        e00: all[0] ^ words[at + 71],
        e01: all[1] ^ words[at],
        e10: all[2] ^ words[at + 1],
        e11: all[3] ^ words[at + 2],
    }
}

// The sums of a block of shape 2 whose rows are neighbours, and all there: another way, since by rows apart a clean visit takes twice as long.
fn sums_beside(words: &[u32], at: usize) -> Sums
    requires { at + 71 < length words.now }
    ensures { result.words ≡ sums_of Two (complemented (lying Two words.now at 1)) }
{
    let mut table = [0u32; 16];
    let mut top = [0u32; 4];
    let mut all = [0u32; 4];
    columns(&*words, at, &mut table, &mut top, &mut all);
    let ends = with_ends(&*words, at, &all);
    let d2 = across(&table, 0);
    let d3 = across(&table, 1);
    let d4 = across(&table, 2);
    let d5 = across(&table, 3);
    let d6 = top[0] ^ top[1] ^ top[2] ^ top[3];
    eight(ends, d2, [d3, d4, d5, d6])
}

// The same as `look`, of a block of shape 2 whose rows are neighbours.
pub fn beside(words: &[u32], at: u32, sums: &mut Sums) -> Finding
    ensures { Looks Two words.now at 1 sums.old.words result sums.new.words }
{
    let first = at as usize;
    if words.len() < first + rows(Shape::Two) {
        return Finding::Missing;
    }
    sums_beside(&*words, first).keep(sums)
}

// What is found of the block of stored words at a site, and its sums where a lane is in doubt.
// Inlined, so that the site goes in registers: a clean visit takes 4 to 15 instructions less.
#[inline(always)]
pub fn look(site: Site, words: &[u32], sums: &mut Sums) -> Finding
    ensures { Looks site.shape words.now site.at site.s sums.old.words result sums.new.words }
{
    if site.s != 1 {
        return look_apart(site, words, sums);
    }
    match site.shape {
        Shape::One => look_one(words, site.at, sums),
        Shape::Two => beside(words, site.at, sums),
    }
}

// The sums of a gathered block, by shape 2: rows past the last of shape 1 that are zero add nothing.
pub fn of_block(block: &[u32; MOST_ROWS]) -> Sums
    ensures { result.words ≡ sums_of Two (complemented (lying Two block.now 0 1)) }
{
    // By `beside`: called here too, `sums_beside` would be a body apart, and a clean visit take 25 instructions more.
    // Zeros that nothing is kept in are the sums of a clean block.
    let mut sums = NO_SUMS;
    beside(block, 0, &mut sums);
    sums
}
