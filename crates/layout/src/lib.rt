// How an image is laid out: its shape, interleave and groups; what is refused of it; where a block lies.
#![tactic(auto)]

mod locating;
mod refusals;
mod sizes;

use shape::Shape;

// The number of the shape, the interleave s, and the group count G: any numbers, as a record from C may hold them.
#[derive(Clone, Copy, Debug, Default, PartialEq, Eq)]
pub struct Layout {
    pub shape: u32,
    pub s: u32,
    pub g: u32,
}

// Where the rows of a block lie: at `at`, `at + s`, `at + 2 s` and so on.
#[derive(Clone, Copy, Debug, PartialEq, Eq)]
pub struct Site {
    pub shape: Shape,
    pub at: u32,
    pub s: u32,
}
