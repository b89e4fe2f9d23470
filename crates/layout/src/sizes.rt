// The sizes of a layout: its shape, the blocks that its groups hold, and the words of a group.
ghost use Rattle.std.specs.Prelude.{◌≡◌};
ghost use Rattle.layout.specs.Layout.{shape_of, CountsBlocks, CountsGroupWords};

use super::Layout;
use shape::{Shape, rows};

impl Layout {
    // N, how many blocks the groups hold.
    pub fn blocks(self) -> usize
        ensures { CountsBlocks self result }
    {
        (self.g as usize) * (self.s as usize)
    }

    // The shape with the layout's number. A number that is no shape's is refused before anything asks for its shape.
    pub(crate) fn shape_of(self) -> Shape
        ensures { result ≡ shape_of self }
    {
        Shape::try_from(self.shape).unwrap_or(Shape::Two)
    }

    // How many words a group has.
    pub fn group_words(self) -> usize
        ensures { CountsGroupWords self result }
    {
        rows(self.shape_of()) * (self.s as usize)
    }
}
