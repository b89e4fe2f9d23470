// Where a block lies in an image, or why it is refused.
ghost use Rattle.layout.specs.Site.{Locates};

use super::{Layout, Site};
use refusal::Refusal;
use shape::rows;

impl Layout {
    // Refusals 1 to 4 and 6, and then where the block's rows lie.
    pub fn locate(self, len: usize, block: u32) -> Result<Site, Refusal>
        ensures { Locates len self block result }
    {
        self.check_image(len)?;
        if self.blocks() <= block as usize {
            return Err(Refusal::NoBlock);
        }
        let shape = self.shape_of();
        let height = rows(shape) as u32;
        let s = self.s;
        // Without interleave no division is wanted.
        let within = if s == 1 { 0 } else { block % s };
        Ok(Site {
            shape,
            at: height * (block - within) + within,
            s,
        })
    }
}
