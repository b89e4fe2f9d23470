// Visits around named rows: none, one, or more.
ghost use Rattle.std.specs.Prelude.{◌≡◌, false, [], ◌∷◌, ◌+◌, ◌*◌, ◌-◌, length};
ghost use Rattle.shape.specs.Shape.{rows};
ghost use Rattle.around.specs.Inner.{more_rows, RowInside, changed_at, Looked, Mends};
ghost use Rattle.around.specs.Refusal.{misnamed?};
ghost use Rattle.around.specs.Visit.{VisitsAround};

use super::Around;
use super::naming::check_named;
use super::solving::{change, mark, solve};
use block::Verdict;
use layout::{Layout, Site};
use refusal::Refusal;
use shape::rows;
use sums::{Finding, NO_SUMS, Sums};

// A block with a lane in doubt: where it lies, and its sums. The rows stand beside it: that they are well named holds of them and a shape together.
#[derive(Clone, Copy)]
struct Doubted {
    layout: Layout,
    block: u32,
    site: Site,
    sums: Sums,
}

// Changes a row of the block at a site, in these lanes.
fn flip(image: &mut [u32], site: Site, row: u32, lanes: u32)
    requires { RowInside (length image.old) site.at site.s row }
    ensures { image.new ≡ changed_at image.old (site.at + (row - 1) * site.s) lanes }
{
    image[site.at as usize + (row as usize - 1) * site.s as usize] ^= lanes;
}

// Where one row is named: its wrong bits are told by the parity, but in the lanes where a sum is left; there one bit outside is wrong too.
fn around_one(image: &mut [u32], found: Doubted, row: u32) -> Around
    requires { Looked image.old found.layout found.block found.site found.sums.words × (misnamed? (rows found.site.shape) (row ∷ []) ≡ false) }
    ensures { Mends image.old found.layout found.block found.site.shape (row ∷ []) result image.new }
{
    let shape = found.site.shape;
    let mut sums = found.sums;
    let mark = mark(shape, row);
    let odd = sums.odd();
    change(&mut sums, mark, odd);
    let outside = sums.any();
    change(&mut sums, mark, outside);
    let inside = odd ^ outside;
    if let Verdict::Lost(even, beyond) = block::decide(shape, &sums) {
        return Around::LostAround(even + beyond);
    }
    flip(image, found.site, row, inside);
    if outside == 0 {
        return Around::Mended(inside.count_ones(), 0);
    }
    store::visit_accepted(image, found.layout, found.block);
    Around::Mended(inside.count_ones(), outside.count_ones())
}

// Where two or three rows are named: nothing outside may be wrong.
fn around_more(image: &mut [u32], found: Doubted, a: u32, b: u32, c: Option<u32>) -> Around
    requires { Looked image.old found.layout found.block found.site found.sums.words
        × (misnamed? (rows found.site.shape) (more_rows a b c) ≡ false) }
    ensures { Mends image.old found.layout found.block found.site.shape (more_rows a b c) result image.new }
{
    let mut sums = found.sums;
    let wrong = solve(&mut sums, found.site.shape, a, b, c);
    let lost = sums.any();
    if lost != 0 {
        return Around::LostAround(lost.count_ones());
    }
    flip(image, found.site, a, wrong.a);
    flip(image, found.site, b, wrong.b);
    if let Some(c) = c {
        flip(image, found.site, c, wrong.c);
    }
    Around::Mended(
        wrong.a.count_ones() + wrong.b.count_ones() + wrong.c.count_ones(),
        0,
    )
}

// What the block is around the named rows, and the image with it mended.
pub fn visit_around(
    image: &mut [u32],
    layout: Layout,
    block: u32,
    list: &[u32],
) -> Result<Around, Refusal>
    ensures { VisitsAround image.old layout block list.now result image.new list.now }
{
    let [first, others @ ..] = list else {
        return Ok(Around::from(store::visit(image, layout, block)?));
    };
    let site = layout.locate(image.len(), block)?;
    check_named(rows(site.shape) as u32, list)?;
    let mut sums = NO_SUMS;
    if let Finding::Clean = sums::look(site, image, &mut sums) {
        return Ok(Around::Clean);
    }
    let found = Doubted {
        layout,
        block,
        site,
        sums,
    };
    Ok(match others {
        [] => around_one(image, found, *first),
        [second, third @ ..] => around_more(image, found, *first, *second, third.first().copied()),
    })
}
