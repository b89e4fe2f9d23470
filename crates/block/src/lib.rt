// The code on one block, 32 lanes at once.
#![tactic(auto)]

mod coding;
mod mending;
mod tables;

pub use coding::{data_into, data_of, encode};
pub use mending::{decide, mend};

#[derive(Clone, Copy, Debug, PartialEq, Eq)]
pub enum Verdict {
    Clean,
    // How many bits are changed.
    Mended(u32),
    // How many lanes are lost with even parity, and how many with an odd sum beyond the rows.
    Lost(u32, u32),
}
