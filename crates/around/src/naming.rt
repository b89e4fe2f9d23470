// The rows that are named in a lent list, and what is refused of it.
ghost use Rattle.std.specs.Prelude.{◌≡◌};
ghost use Rattle.refusal.specs.Refusal.{answer_number};
ghost use Rattle.around.specs.Refusal.{named_refusal};

use refusal::Refusal;

// The most rows that can be named: as many as valid lanes tell apart.
const MOST_NAMED: usize = 3;

// Refusals 13 and 14: each row is one of the block's, and none is named again.
pub(crate) fn check_named(last: u32, list: &[u32]) -> Result<(), Refusal>
    ensures { answer_number result ≡ named_refusal last list.now }
{
    if MOST_NAMED < list.len() {
        return Err(Refusal::TooManyRows);
    }
    for (k, row) in list.iter().enumerate() {
        if !(1..=last).contains(row) || list[k + 1..].contains(row) {
            return Err(Refusal::BadRow);
        }
    }
    Ok(())
}
