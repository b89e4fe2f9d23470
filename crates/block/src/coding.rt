// The valid block for a list of data words, and the data words of a block.
ghost use Rattle.std.specs.Prelude.{true, ◌≡◌, ℕ, ◌+◌, ◌*◌, ◌-◌, ◌^◌, ◌≤◌, ◌<◌, length, get_or};
ghost use Rattle.ground.specs.Stores.{stores};
ghost use Rattle.shape.specs.Shape.{most_rows};
ghost use Rattle.block.specs.Block.{blank, Encodes};
ghost use Rattle.block.specs.Sums.{CopiesData};
ghost use Rattle.block.specs.Inner.{listed?, rising?, xor_all, with_checks};

use super::tables::*;
use ground::least;
use layout::Site;
use shape::{MOST_ROWS, Shape, rows, rows_before};
use sums::{DIGITS, Sums};

// The data words in the listed rows, in order.
fn spread(rows: &[u8], list: &[u32], block: &mut [u32; MOST_ROWS])
    requires { (listed? most_rows rows.now ≡ true) × (rising? rows.now ≡ true) × (block.old ≡ blank) }
    ensures { block.new ≡ stores blank (λ k. get_or rows.now k 0 - 1) (λ k. get_or list.now k 0) (length rows.now) }
{
    for (row, word) in rows.iter().zip(list) {
        block[usize::from(*row) - 1] = *word;
    }
}

// The exclusive or of all digits' words.
fn xor_all(sums: &Sums) -> u32
    ensures { result ≡ xor_all 7 sums.now.words }
{
    let w = sums.words;
    w[0] ^ w[1] ^ w[2] ^ w[3] ^ w[4] ^ w[5] ^ w[6]
}

// Sets check rows 1, 2, 4, .. 64 to the digits' words.
fn set_checks(block: &mut [u32; MOST_ROWS], sums: &Sums)
    ensures { block.new ≡ with_checks sums.now.words block.old }
{
    for (k, word) in sums.words[..DIGITS].iter().enumerate() {
        block[(1 << k) - 1] = *word;
    }
}

// The valid block for a list of data words: a word that is missing counts as zero, and words past the last data row are not used.
pub fn encode(shape: Shape, list: &[u32]) -> [u32; MOST_ROWS]
    ensures { Encodes shape list.now result }
{
    let mut block = [0u32; MOST_ROWS];
    match shape {
        Shape::One => spread(&DATA_ONE, list, &mut block),
        Shape::Two => spread(&DATA_TWO, list, &mut block),
    }
    // Sums are taken of stored words; the check rows are then set over rows 1 and 2.
    stored::complement_block(&mut block);
    // Rows past the last of shape 1 are zero and add nothing: the sums of shape 2 serve both.
    let sums = sums::of_block(&block);
    let last = sums.odd() ^ xor_all(&sums);
    set_checks(&mut block, &sums);
    let at = rows_before(shape);
    block[at] = last;
    block
}

// Copies the words of the listed rows, s apart from `at` on, in order, as many as the buffer has room for. No site: a gathered block has none.
fn copy_rows(rows: &[u8], words: &[u32], at: usize, s: usize, buffer: &mut [u32])
    requires { (at < 2 ^ 32) × (s < 2 ^ 32)
        × ((k : ℕ) → k < length rows.now → (1 ≤ get_or rows.now k 0) × (at + (get_or rows.now k 0 - 1) * s < length words.now)) }
    ensures { buffer.new
        ≡ stores buffer.old (λ k. k) (λ k. get_or words.now (at + (get_or rows.now k 0 - 1) * s) 0)
        (length rows.now) }
{
    let n = least(rows.len(), buffer.len());
    // By index: a proof knows nothing of a buffer after its `iter_mut` was zipped.
    for (k, row) in rows[..n].iter().enumerate() {
        buffer[k] = words[at + usize::from(*row) * s - s];
    }
}

// Copies the data words of the block at a site to a buffer; nothing where a row is missing.
pub fn data_into(site: Site, words: &[u32], buffer: &mut [u32])
    ensures { CopiesData site.shape words.now site.at site.s buffer.old buffer.new }
{
    let shape = site.shape;
    let first = site.at as usize;
    let step = site.s as usize;
    if words.len() <= first + rows_before(shape) * step {
        return;
    }
    // The data rows of shape 1 are the first of shape 2's: one loop serves both.
    let table = DATA_TWO;
    copy_rows(&table[..shape::words(shape)], words, first, step, buffer);
}

// The same as `data_into`, of a gathered block: its rows are neighbours, from the first word on. A promise of its own (docs/PROMISES.md).
pub fn data_of(shape: Shape, block: &[u32], buffer: &mut [u32])
    ensures { CopiesData shape block.now 0 1 buffer.old buffer.new }
{
    if block.len() < rows(shape) {
        return;
    }
    // Each table whole, so that the compiler knows shape 1's few rows by number.
    match shape {
        Shape::One => copy_rows(&DATA_ONE, block, 0, 1, buffer),
        Shape::Two => copy_rows(&DATA_TWO, block, 0, 1, buffer),
    }
}
