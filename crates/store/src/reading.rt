// Read: the mended data of a block, copied to a lent buffer, straight from the image where the block is valid.
ghost use Rattle.store.specs.Read.{Reads};

use super::doubt::in_doubt;
use block::Verdict;
use layout::Layout;
use refusal::Refusal;
use shape::MOST_ROWS;
use sums::{Finding, NO_SUMS};

pub fn read(
    image: &[u32],
    layout: Layout,
    block: u32,
    buffer: &mut [u32],
) -> Result<Verdict, Refusal>
    ensures { Reads image.now layout block buffer.old result image.now buffer.new }
{
    let site = layout.locate(image.len(), block)?;
    if buffer.len() != shape::words(site.shape) {
        return Err(Refusal::BadList);
    }
    let mut sums = NO_SUMS;
    if let Finding::Clean = sums::look(site, image, &mut sums) {
        block::data_into(site, image, buffer);
        return Ok(Verdict::Clean);
    }
    let mut rows = [0u32; MOST_ROWS];
    let verdict = in_doubt(image, site, &sums, &mut rows);
    if let Verdict::Lost(_, _) = verdict {
        return Ok(verdict);
    }
    block::data_of(site.shape, &rows, buffer);
    Ok(verdict)
}
