// The report that is printed of an image file.
#![tactic(auto)]

ghost use Rattle.std.specs.Prelude.{◌≡◌};
ghost use Rattle.report.specs.Lines.{counted};
ghost use Rattle.report.specs.Inner.{Countable};

mod lines;
mod reporting;

use block::Verdict;
pub use reporting::inspect;

// One byte more than the longest file has, so that a longer one is seen to be.
pub const INPUT_BYTES: usize = 32769;

// The longest report: 511 blocks of shape 1, 100 of them lost in 32 lanes and the others mended in 32 bits.
pub const REPORT_BYTES: usize = 10204;

// The blocks of each verdict, and all bits mended.
#[derive(Clone, Copy, Default)]
pub(crate) struct Tally {
    pub(crate) clean: u32,
    pub(crate) mended: u32,
    pub(crate) lost: u32,
    pub(crate) bits: u32,
}

impl Tally {
    // One block more.
    pub(crate) fn count(&mut self, verdict: Verdict)
        requires { Countable verdict self.old }
        ensures { self.new ≡ counted verdict self.old }
    {
        match verdict {
            Verdict::Clean => {
                self.clean += 1;
            }
            Verdict::Mended(bits) => {
                self.mended += 1;
                self.bits += bits;
            }
            Verdict::Lost(_, _) => {
                self.lost += 1;
            }
        }
    }
}
