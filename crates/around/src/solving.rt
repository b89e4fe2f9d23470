// In which lanes each named row is wrong, from the sums: a row that is wrong in a lane changes the digits of its mark there.
ghost use Rattle.std.specs.Prelude.{false, ◌≡◌, ℕ, ◌<◌, ◌≤◌};
ghost use Rattle.shape.specs.Shape.{rows};
ghost use Rattle.around.specs.Refusal.{misnamed?};
ghost use Rattle.around.specs.Inner.{mark, changed_by, lanes_told, more_rows, row_or_none, Solves};

use shape::{Shape, rows};
use sums::{DIGITS, Sums};

// The digit by which every row counts in the parity.
const PARITY: u32 = 1 << DIGITS;

// The lanes in which each of three rows is wrong; none of a row that is not named.
#[derive(Clone, Copy)]
pub(crate) struct Told {
    pub a: u32,
    pub b: u32,
    pub c: u32,
}

// The digits by which a row counts in sum and parity.
pub(crate) fn mark(shape: Shape, row: u32) -> u32
    requires { (1 ≤ row) × (row ≤ rows shape) }
    ensures { result ≡ mark (rows shape) row }
{
    if row as usize == rows(shape) {
        PARITY
    } else {
        PARITY + row
    }
}

// Changes the digits of a mark in these lanes.
pub(crate) fn change(sums: &mut Sums, mark: u32, lanes: u32)
    ensures { sums.new.words ≡ changed_by mark lanes sums.old.words }
{
    for (k, word) in sums.words.iter_mut().enumerate() {
        if (mark >> k) % 2 == 1 {
            *word ^= lanes;
        }
    }
}

// The lanes that the lowest digit of a mark tells; the mark is taken out of the sums there.
#[tactic(auto, using(crate::proofs::Taken::lowest_digit))]
fn take_out(sums: &mut Sums, mark: u32) -> u32
    requires { (0 < mark) × (mark < 256) }
    ensures lanes { result ≡ lanes_told mark sums.old.words }
    ensures sums { sums.new.words ≡ changed_by mark (lanes_told mark sums.old.words) sums.old.words }
{
    let lanes = sums.words[mark.trailing_zeros() as usize];
    change(sums, mark, lanes);
    lanes
}

// The lanes in which two or three rows are wrong, if no others are; what is left in the sums is then nothing.
pub(crate) fn solve(sums: &mut Sums, shape: Shape, a: u32, b: u32, c: Option<u32>) -> Told
    requires { misnamed? (rows shape) (more_rows a b c) ≡ false }
    ensures { Solves sums.old.words (mark (rows shape) a) (mark (rows shape) b) (mark (rows shape) (row_or_none c)) result sums.new.words }
{
    let a = mark(shape, a);
    let b = mark(shape, b);
    // Every mark has the parity's digit: out of the parity the first is taken.
    let odd = sums.odd();
    change(sums, a, odd);
    let ab = a ^ b;
    let told = take_out(sums, ab);
    let Some(row) = c else {
        return Told {
            a: odd ^ told,
            b: told,
            c: 0,
        };
    };
    let c = mark(shape, row);
    let ac = a ^ c;
    if (ac >> ab.trailing_zeros()) % 2 == 1 {
        let third = take_out(sums, b ^ c);
        return Told {
            a: odd ^ told,
            b: told ^ third,
            c: third,
        };
    }
    let third = take_out(sums, ac);
    Told {
        a: odd ^ told ^ third,
        b: told,
        c: third,
    }
}
