// What the calls answer, as words.
ghost use Rattle.std.specs.Prelude.{◌≡◌};
ghost use Rattle.block.specs.Verdict.{verdict_words};
ghost use Rattle.patrol.specs.Numbers.{visit_words};
ghost use Rattle.words.specs.Answers.{NumbersAnswer, SpellsAnswer, SpellsStored, SpellsCount, SpellsReport};

use super::{REPORT_WORDS, VERDICT_WORDS, VISIT_WORDS};
use block::Verdict;
use patrol::{Report, Visit};
use refusal::Refusal;

// The number of a verdict, and its two counts: bits mended and 0, or the lanes lost of each kind.
fn verdict_words(verdict: Verdict) -> [u32; VERDICT_WORDS]
    ensures { result ≡ verdict_words verdict }
{
    match verdict {
        Verdict::Clean => [1, 0, 0],
        Verdict::Mended(bits) => [2, bits, 0],
        Verdict::Lost(even, beyond) => [3, even, beyond],
    }
}

// The number that a call answers: its refusal's, and 0 where it is accepted.
pub fn number<T>(answer: &Result<T, Refusal>) -> u32
    ensures { NumbersAnswer answer.now result }
{
    match answer {
        Ok(_) => 0,
        Err(refusal) => u32::from(*refusal),
    }
}

// The words of the verdict that was found, and zeros where the call is refused.
pub fn answer_words(answer: Result<Verdict, Refusal>) -> [u32; VERDICT_WORDS]
    ensures { SpellsAnswer answer result }
{
    answer.map_or([0; VERDICT_WORDS], verdict_words)
}

// The words of the verdict that a write has: zeros, as it has none, accepted or refused.
pub fn stored_words(answer: Result<(), Refusal>) -> [u32; VERDICT_WORDS]
    ensures { SpellsStored answer result }
{
    match answer {
        Ok(()) | Err(_) => [0; VERDICT_WORDS],
    }
}

// The one number that a call answers besides, an ask its place and a writer its bytes; 0 where the call is refused.
pub fn count_words(answer: Result<u32, Refusal>) -> [u32; 1]
    ensures { SpellsCount answer result }
{
    [answer.unwrap_or(0)]
}

// A visit: its block, and then the words of its verdict.
fn visit_words(visit: Visit) -> [u32; VISIT_WORDS]
    ensures { result ≡ visit_words visit.block visit.verdict }
{
    let [number, count, beyond] = verdict_words(visit.verdict);
    [visit.block, number, count, beyond]
}

// The patrol's visit, then the ask's; zeros where there was none.
pub fn report_words(answer: Result<Report, Refusal>) -> [u32; REPORT_WORDS]
    ensures { SpellsReport answer result }
{
    let mut words = [0u32; REPORT_WORDS];
    if let Ok(report) = answer {
        words[..VISIT_WORDS].copy_from_slice(&visit_words(report.patrol));
        if let Some(ask) = report.ask {
            words[VISIT_WORDS..].copy_from_slice(&visit_words(ask));
        }
    }
    words
}
