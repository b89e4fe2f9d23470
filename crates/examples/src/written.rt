// Worked examples 1 to 4 and 12: what a write stores, and where. Rows 1 and 2 are stored complemented.
use crate::rows::{ALL, NOT_ONE, alone};
use layout::Layout;

const TOP: u32 = 0x80000000;

// The topmost bit, complemented.
const NOT_TOP: u32 = 0x7FFFFFFF;

// Whether a write of a block is accepted, and leaves these words of the image.
fn write_leaves(
    image: &mut [u32],
    layout: Layout,
    block: u32,
    list: &[u32],
    after: &[u32],
) -> bool {
    store::write(image, layout, block, list) == Ok(()) && &*image == after
}

// Whether a write of the only block of an image of shape 1 leaves these rows.
fn leaves_rows(list: [u32; 11], after: [u32; 16]) -> bool {
    let mut image = [0u32; 16];
    write_leaves(&mut image, alone(1), 0, &list, &after)
}

// Data word 1 = 1: rows 1, 2, 3 and 16 become 1, the first two complemented.
pub(crate) fn example_1() -> bool {
    let after = [NOT_ONE, NOT_ONE, 1, 0, 0, 0, 0, 0, 0, 0, 0, 0, 0, 0, 0, 1];
    leaves_rows([1, 0, 0, 0, 0, 0, 0, 0, 0, 0, 0], after)
}

// Data word 11 = 80000000 hex: rows 1, 2, 4, 8, 15 and 16 become that, the first two complemented.
pub(crate) fn example_2() -> bool {
    let after = [
        NOT_TOP, NOT_TOP, 0, TOP, 0, 0, 0, TOP, 0, 0, 0, 0, 0, 0, TOP, TOP,
    ];
    leaves_rows([0, 0, 0, 0, 0, 0, 0, 0, 0, 0, TOP], after)
}

// All data FFFFFFFF hex: every row becomes that, in both shapes, and rows 1 and 2, complemented, zero.
pub(crate) fn example_3() -> bool {
    let mut image = [0u32; 72];
    let mut small = [ALL; 16];
    small[0] = 0;
    small[1] = 0;
    let mut large = [ALL; 72];
    large[0] = 0;
    large[1] = 0;
    leaves_rows([ALL; 11], small) && write_leaves(&mut image, alone(2), 0, &[ALL; 64], &large)
}

// Whether a write of shape 2 with data word 64 = 1 leaves these words of the image.
fn last_word_leaves(image: &mut [u32], layout: Layout, block: u32, after: &[u32]) -> bool {
    let mut list = [0u32; 64];
    list[63] = 1;
    write_leaves(image, layout, block, &list, after)
}

// The block of shape 2 for data word 64 = 1: rows 1, 2, 4, 64, 71 and 72 are 1, the first two complemented.
fn last_word_rows() -> [u32; 72] {
    let mut rows = [0u32; 72];
    rows[0] = NOT_ONE;
    rows[1] = NOT_ONE;
    rows[3] = 1;
    rows[63] = 1;
    rows[70] = 1;
    rows[71] = 1;
    rows
}

// Shape 2, data word 64 = 1: rows 1, 2, 4, 64, 71 and 72 become 1, the first two complemented.
pub(crate) fn example_4() -> bool {
    let mut image = [0u32; 72];
    last_word_leaves(&mut image, alone(2), 0, &last_word_rows())
}

// Shape 2, s = 6, block 7: row 1 at index 433 and row 72 at 859; rows 2, 4, 64 and 71 lie between.
pub(crate) fn example_12() -> bool {
    let mut image = [0u32; 864];
    let mut after = [0u32; 864];
    let places = after.iter_mut().skip(433).step_by(6);
    for (word, row) in places.zip(last_word_rows()) {
        *word = row;
    }
    let layout = Layout {
        shape: 2,
        s: 6,
        g: 2,
    };
    last_word_leaves(&mut image, layout, 7, &after)
}
