// The two shapes of a block: their rows and their data words, said once.
#![tactic(auto)]

ghost use Rattle.shape.specs.Shape.{NumbersShape, CountsBefore, CountsRows, CountsWords};

use refusal::Refusal;

#[derive(Clone, Copy, Debug, PartialEq, Eq)]
pub enum Shape {
    One,
    Two,
}

impl TryFrom<u32> for Shape {
    type Error = Refusal;

    ghost try_from_gives = { NumbersShape };

    fn try_from(number: u32) -> Result<Shape, Refusal> {
        match number {
            1 => Ok(Shape::One),
            2 => Ok(Shape::Two),
            _ => Err(Refusal::NoShape),
        }
    }
}

// The rows before the last of the larger shape.
const MOST_BEFORE: usize = 71;

// Its rows: a block of either shape is gathered into an array of so many words.
pub const MOST_ROWS: usize = MOST_BEFORE + 1;

// How many rows stand before the last.
pub fn rows_before(shape: Shape) -> usize
    ensures { CountsBefore shape result }
{
    match shape {
        Shape::One => 15,
        Shape::Two => MOST_BEFORE,
    }
}

// How many rows a block has.
pub fn rows(shape: Shape) -> usize
    ensures { CountsRows shape result }
{
    rows_before(shape) + 1
}

// How many data words a block holds.
pub fn words(shape: Shape) -> usize
    ensures { CountsWords shape result }
{
    match shape {
        Shape::One => 11,
        Shape::Two => 64,
    }
}
