// Worked examples 5 to 11, and a dead chip: what a visit finds, and what it leaves. Rows 1 and 2 are stored complemented.
use crate::rows::{ALL, NOT_ONE, alone};
use block::Verdict;

// A block of shape 1 as format leaves it.
const FRESH: [u32; 16] = [ALL, ALL, 0, 0, 0, 0, 0, 0, 0, 0, 0, 0, 0, 0, 0, 0];

// Whether a visit of the only block of an image finds this verdict, and leaves these words.
fn visit_leaves(image: &mut [u32], shape: u32, verdict: Verdict, after: &[u32]) -> bool {
    store::visit(image, alone(shape), 0) == Ok(verdict) && &*image == after
}

// Whether a visit of this block of shape 1 mends so many bits and leaves these rows.
fn mends(rows: [u32; 16], bits: u32, after: [u32; 16]) -> bool {
    let mut image = rows;
    visit_leaves(&mut image, 1, Verdict::Mended(bits), &after)
}

// Whether a visit of this block of shape 1 finds so many lanes lost with even parity, and no others, and leaves every row.
fn loses(rows: [u32; 16], lanes: u32) -> bool {
    let mut image = rows;
    visit_leaves(&mut image, 1, Verdict::Lost(lanes, 0), &rows)
}

// Row 5 = 1: mended 1, fresh after.
pub(crate) fn example_5() -> bool {
    let mut rows = FRESH;
    rows[4] = 1;
    mends(rows, 1, FRESH)
}

// Row 16 = FFFFFFFF hex: mended 32, fresh after.
pub(crate) fn example_6() -> bool {
    let mut rows = FRESH;
    rows[15] = ALL;
    mends(rows, 32, FRESH)
}

// Rows 3 and 5 = 1: lost 1 0, unchanged.
pub(crate) fn example_7() -> bool {
    loses([ALL, ALL, 1, 0, 1, 0, 0, 0, 0, 0, 0, 0, 0, 0, 0, 0], 1)
}

// Row 3 = 1, row 5 = 2: mended 2, fresh after.
pub(crate) fn example_8() -> bool {
    mends(
        [ALL, ALL, 1, 0, 2, 0, 0, 0, 0, 0, 0, 0, 0, 0, 0, 0],
        2,
        FRESH,
    )
}

// Rows 3 and 5 = 1, row 9 = 2: lost 1 0; row 9 stays 2.
pub(crate) fn example_9() -> bool {
    loses([ALL, ALL, 1, 0, 1, 0, 0, 0, 2, 0, 0, 0, 0, 0, 0, 0], 1)
}

// Rows 1, 2 and 4 = 1, the first two complemented: mended 1; row 7 becomes 1 too.
pub(crate) fn example_10() -> bool {
    let rows = [NOT_ONE, NOT_ONE, 0, 1, 0, 0, 0, 0, 0, 0, 0, 0, 0, 0, 0, 0];
    let mut after = rows;
    after[6] = 1;
    mends(rows, 1, after)
}

// Shape 2, rows 1, 9 and 64 = 1, the first complemented: sum 72, odd: lost 0 1, unchanged.
pub(crate) fn example_11() -> bool {
    let mut image = [0u32; 72];
    image[0] = NOT_ONE;
    image[1] = ALL;
    image[8] = 1;
    image[63] = 1;
    let after = image;
    visit_leaves(&mut image, 2, Verdict::Lost(0, 1), &after)
}

// Whether a block of shape 2 with this word in every row is lost in 32 even lanes, and left.
fn loses_all(word: u32) -> bool {
    let mut image = [word; 72];
    let after = image;
    visit_leaves(&mut image, 2, Verdict::Lost(32, 0), &after)
}

// A dead chip, all zeros or all ones, in both shapes: lost 32 0, unchanged.
pub(crate) fn dead_chip() -> bool {
    loses([0; 16], 32) && loses([ALL; 16], 32) && loses_all(0) && loses_all(ALL)
}
