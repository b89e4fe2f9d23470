// Visits that mend a block around rows known dead, 32 lanes at once.
#![tactic(auto)]

mod naming;
mod solving;
mod visiting;

ghost use Rattle.std.specs.Prelude.{◌≡◌};
ghost use Rattle.around.specs.Answer.{unnamed};

use block::Verdict;
pub use visiting::visit_around;

// What a visit around named rows finds.
#[derive(Clone, Copy, Debug, PartialEq, Eq)]
pub enum Around {
    Clean,
    // How many bits are changed inside the named rows, and how many outside.
    Mended(u32, u32),
    // No row is named: how many lanes are lost with even parity, and how many with an odd sum beyond the rows.
    Lost(u32, u32),
    // Rows are named: how many lanes cannot be made valid around them.
    LostAround(u32),
}

// What an ordinary visit finds, as a visit around no row: its bits are changed outside.
impl From<Verdict> for Around {
    ghost from_gives = { λ verdict given. given ≡ unnamed verdict };

    fn from(verdict: Verdict) -> Around {
        match verdict {
            Verdict::Clean => Around::Clean,
            Verdict::Mended(bits) => Around::Mended(0, bits),
            Verdict::Lost(even, beyond) => Around::Lost(even, beyond),
        }
    }
}
