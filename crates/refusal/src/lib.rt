// Why a call is refused, in plain reasons, and the number of each.
#![tactic(auto)]

ghost use Rattle.std.specs.Prelude.{◌≡◌};
ghost use Rattle.refusal.specs.Refusal.{number};

#[derive(Clone, Copy, Debug, PartialEq, Eq, Hash)]
pub enum Refusal {
    // Shape is not 1 or 2.
    NoShape,
    // s is 0 or above 16.
    BadInterleave,
    // G is 0, or there are more than 4,096 blocks.
    BadGroups,
    // The image has not the length of its layout.
    BadLength,
    // The patrol's record is broken.
    BrokenRecord,
    // No block has this number.
    NoBlock,
    // A data list or buffer is not of the exact length.
    BadList,
    // Every place is held by another block.
    LineFull,
    // The file's version is neither 1 nor 2.
    BadVersion,
    // The file is below 9 bytes, or its length field is wrong.
    BadSize,
    // The file is above 32,768 bytes.
    TooLong,
    // The buffer is shorter than the file.
    NoRoom,
    // More than three rows are named.
    TooManyRows,
    // A row that is named is none of the block's, or named twice.
    BadRow,
}

impl From<Refusal> for u32 {
    ghost from_gives = { λ refusal given. given ≡ number refusal };

    fn from(refusal: Refusal) -> u32 {
        match refusal {
            Refusal::NoShape => 1,
            Refusal::BadInterleave => 2,
            Refusal::BadGroups => 3,
            Refusal::BadLength => 4,
            Refusal::BrokenRecord => 5,
            Refusal::NoBlock => 6,
            Refusal::BadList => 7,
            Refusal::LineFull => 8,
            Refusal::BadVersion => 9,
            Refusal::BadSize => 10,
            Refusal::TooLong => 11,
            Refusal::NoRoom => 12,
            Refusal::TooManyRows => 13,
            Refusal::BadRow => 14,
        }
    }
}
