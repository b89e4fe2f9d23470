// Worked examples 13 to 15: format, ask and turn.
use crate::answers::{of_count, of_done, of_report};
use crate::calls::Patrolled;
use block::Verdict;
use layout::Layout;
use patrol::{Report, Visit};
use refusal::Refusal;
use words::RECORD_WORDS;

impl Patrolled<'_> {
    // Whether format of an image of shape 1 answers this.
    fn formats(&mut self, s: u32, g: u32, answer: Result<(), Refusal>) -> bool {
        self.format(Layout { shape: 1, s, g }) == of_done(&answer)
    }

    // Whether an ask answers this.
    fn asks(&mut self, block: u32, place: Result<u32, Refusal>) -> bool {
        self.ask(block) == of_count(place)
    }

    // Whether a turn is accepted and reports this.
    fn turns(&mut self, report: Report) -> bool {
        self.turn() == of_report(Ok(report))
    }
}

// A visit that finds the block clean.
fn clean(block: u32) -> Visit {
    let verdict = Verdict::Clean;
    Visit { block, verdict }
}

// The report of a turn that finds these blocks clean.
fn all_clean(patrol: u32, ask: Option<u32>) -> Report {
    Report {
        patrol: clean(patrol),
        ask: ask.map(clean),
    }
}

// N = 3, fresh: ask 2 gets place 1, asking again gets place 1. The first turn visits 0 then 2, the next visits 1 only.
pub(crate) fn example_13() -> bool {
    let mut patrolled = Patrolled {
        image: &mut [7u32; 48],
        record: &mut [0u32; RECORD_WORDS],
    };
    patrolled.formats(3, 1, Ok(()))
        && patrolled.asks(2, Ok(1))
        && patrolled.asks(2, Ok(1))
        && patrolled.turns(all_clean(0, Some(2)))
        && patrolled.turns(all_clean(1, None))
}

// Whether format answers this.
fn format_answers(image: &mut [u32], s: u32, g: u32, answer: Result<(), Refusal>) -> bool {
    let mut patrolled = Patrolled {
        image,
        record: &mut [0u32; RECORD_WORDS],
    };
    patrolled.formats(s, g, answer)
}

// Whether format refuses an image so and leaves its words.
fn format_refuses(s: u32, g: u32, refusal: Refusal) -> bool {
    let mut image = [7u32; 16];
    format_answers(&mut image, s, g, Err(refusal)) && image == [7u32; 16]
}

// Whether an image of shape 1 with s = 16 is fresh: of the 256 words of a group the first 32 are rows 1 and 2.
fn is_fresh(image: &[u32]) -> bool {
    image.iter().enumerate().all(|(i, word)| *word == if i % 256 < 32 { 0xFFFFFFFF } else { 0 })
}

// s = 16, G = 256 accepted; G = 257 refused 3; s = 0 or 17 refused 2.
pub(crate) fn example_14() -> bool {
    let mut image = [7u32; 65536];
    format_answers(&mut image, 16, 256, Ok(()))
        && is_fresh(&image)
        && format_refuses(16, 257, Refusal::BadGroups)
        && format_refuses(0, 1, Refusal::BadInterleave)
        && format_refuses(17, 1, Refusal::BadInterleave)
}

// Sixteen blocks wait: a seventeenth is refused 8; after one turn it gets place 16.
pub(crate) fn example_15() -> bool {
    let mut patrolled = Patrolled {
        image: &mut [7u32; 272],
        record: &mut [0u32; RECORD_WORDS],
    };
    let mut places = (0..16).zip(1..=16);
    patrolled.formats(1, 17, Ok(()))
        && places.all(|(block, place)| patrolled.asks(block, Ok(place)))
        && patrolled.asks(16, Err(Refusal::LineFull))
        && patrolled.turns(all_clean(0, Some(0)))
        && patrolled.asks(16, Ok(16))
}
