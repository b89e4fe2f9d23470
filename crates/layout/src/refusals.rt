// The refusals of a layout and of an image's length, in the order of the table: the first that applies wins.
ghost use Rattle.layout.specs.Refusal.{Checks, ChecksImage};

use super::Layout;
use refusal::Refusal;
use shape::{Shape, rows};

impl Layout {
    // Refusals 1, 2 and 3: shape, interleave and groups.
    pub fn check(self) -> Result<(), Refusal>
        ensures { Checks self result }
    {
        Shape::try_from(self.shape)?;
        if !(1..=16).contains(&self.s) {
            return Err(Refusal::BadInterleave);
        }
        if !(1..=4096).contains(&self.blocks()) {
            return Err(Refusal::BadGroups);
        }
        Ok(())
    }

    // Refusals 1 to 4: those of the layout, and the image's length.
    pub fn check_image(self, len: usize) -> Result<(), Refusal>
        ensures { ChecksImage len self result }
    {
        self.check()?;
        if len != rows(self.shape_of()) * self.blocks() {
            return Err(Refusal::BadLength);
        }
        Ok(())
    }
}
