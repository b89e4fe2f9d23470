// A block in doubt: decided whole by its sums, then gathered and mended.
ghost use Rattle.std.specs.Prelude.{◌≡◌, length};
ghost use Rattle.shape.specs.Shape.{rows};
ghost use Rattle.ground.specs.Choice.{if_zero};
ghost use Rattle.block.specs.Block.{blank, lanes_lost, mended_lanes};
ghost use Rattle.block.specs.Verdict.{verdict_of};
ghost use Rattle.sums.specs.Sums.{sums_of};
ghost use Rattle.store.specs.Inner.{Inside, taken};

use super::copies::gather;
use block::Verdict;
use layout::Site;
use shape::MOST_ROWS;
use sums::Sums;

// What the block is, and its rows mended; where a lane is lost they are not taken out.
// The rows are lent, as read and visit go on with them in place: as a value beside the verdict they would be no plainer.
pub(crate) fn in_doubt(
    image: &[u32],
    site: Site,
    sums: &Sums,
    mended: &mut [u32; MOST_ROWS],
) -> Verdict
    requires { Inside (length image.now) (rows site.shape) site.at site.s
        × (sums.now.words ≡ sums_of site.shape (taken site.shape image.now site.at site.s)) × (mended.old ≡ blank) }
    ensures verdict { result ≡ verdict_of site.shape (taken site.shape image.now site.at site.s) }
    ensures mended { mended.new ≡ if_zero (lanes_lost site.shape (taken site.shape image.now site.at site.s))
        (mended_lanes site.shape (taken site.shape image.now site.at site.s)) blank }
{
    let verdict = block::decide(site.shape, sums);
    if let Verdict::Lost(_, _) = verdict {
        return verdict;
    }
    gather(&*image, site, mended);
    block::mend(site.shape, mended, sums);
    verdict
}
