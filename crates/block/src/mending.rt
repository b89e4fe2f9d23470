// The full decision on a block by its sums, and the mending of a gathered one, before anything is stored.
ghost use Rattle.std.specs.Prelude.{◌≡◌, true, ℕ, ◌≤◌, ◌<◌};
ghost use Rattle.lane.specs.Bit.{bit};
ghost use Rattle.shape.specs.Shape.{before, most_rows};
ghost use Rattle.sums.specs.Sums.{sum_in};
ghost use Rattle.block.specs.Sums.{Decides, MendsLanes};
ghost use Rattle.block.specs.Inner.{above_of, row_named, flipped_in};

use super::Verdict;
use shape::{MOST_ROWS, Shape, rows};
use sums::{DIGITS, Sums};

// The lanes whose sum is above the rows before the last: 16 or more in shape 1, 72 or more in shape 2.
fn above(shape: Shape, sums: &Sums) -> u32
    ensures { result ≡ above_of (before shape) 7 sums.now.words }
{
    let w = sums.words;
    match shape {
        Shape::One => w[4] | w[5] | w[6],
        Shape::Two => (w[3] | w[4] | w[5]) & w[6],
    }
}

// The row that the sum of lane `i` names: the last where the sum is 0.
fn row_named(sums: &Sums, i: u32, last: usize) -> usize
    requires { i < 32 }
    ensures { result ≡ row_named last (sum_in sums.now.words i) }
{
    let mut sum: usize = 0;
    for (k, word) in sums.words[..DIGITS].iter().enumerate() {
        if (*word >> i) % 2 == 1 {
            sum += 1 << k;
        }
    }
    if sum == 0 { last } else { sum }
}

// Flips, in each of these lanes, the row that its sum names.
fn flip_named(block: &mut [u32; MOST_ROWS], sums: &Sums, lanes: u32, last: usize)
    requires { (1 ≤ last) × (last ≤ most_rows) × ((i : ℕ) → i < 32 → bit i lanes ≡ true → sum_in sums.now.words i < last) }
    ensures { block.new ≡ flipped_in last sums.now.words (λ i. bit i lanes) block.old }
{
    let mut left = lanes;
    // By the set bits: a for over all lanes takes 32 turns for one flip, past its bar of 10.73 a data byte in shape 1.
    while left != 0 {
        let i = u32::trailing_zeros(left);
        let p = row_named(sums, i, last);
        let lane = 1 << i;
        block[p - 1] ^= lane;
        left ^= lane;
    }
}

// Decides a block by its sums.
pub fn decide(shape: Shape, sums: &Sums) -> Verdict
    ensures { Decides shape sums.now.words result }
{
    let parity = sums.odd();
    let even = sums.any() & !parity;
    let beyond = parity & above(shape, sums);
    if even | beyond != 0 {
        return Verdict::Lost(u32::count_ones(even), u32::count_ones(beyond));
    }
    if parity == 0 {
        return Verdict::Clean;
    }
    Verdict::Mended(u32::count_ones(parity))
}

// Mends a gathered block by its sums, in every lane that is not lost.
pub fn mend(shape: Shape, block: &mut [u32; MOST_ROWS], sums: &Sums)
    ensures { MendsLanes shape block.old sums.now.words block.new }
{
    let lanes = sums.odd() & !above(shape, sums);
    flip_named(block, sums, lanes, rows(shape));
}
