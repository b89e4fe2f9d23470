// What the worked examples share: words of rows, and the layout of one block. Rows 1 and 2 are stored complemented.
use layout::Layout;

pub(crate) const ALL: u32 = 0xFFFFFFFF;

// 1, complemented.
pub(crate) const NOT_ONE: u32 = 0xFFFFFFFE;

// The layout of one block.
pub(crate) fn alone(shape: u32) -> Layout {
    Layout { shape, s: 1, g: 1 }
}
