// Answers and records as words, and records back: what the face for C and the stored vectors share.
// By functions, and not by From: an impl would have to lie with a type, and the words of C stand here alone.
#![tactic(auto)]

mod answers;
mod files;
mod records;

pub use answers::{answer_words, count_words, number, report_words, stored_words};
pub use files::header_words;
pub use records::{record_of, record_words};

// The number of a verdict, and its two counts.
pub const VERDICT_WORDS: usize = 3;

// A block, and its verdict.
const VISIT_WORDS: usize = 1 + VERDICT_WORDS;

// The patrol's visit, and the ask's.
pub const REPORT_WORDS: usize = 2 * VISIT_WORDS;

// Shape, s, G.
pub const LAYOUT_WORDS: usize = 3;

// Shape, s, G, next, how many wait.
const FRONT_WORDS: usize = 5;

// Those, and the places.
pub const RECORD_WORDS: usize = FRONT_WORDS + rota::PLACES;
