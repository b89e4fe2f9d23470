// What a call answers as words: its number, a report and a place.
ghost use Rattle.std.specs.Prelude.{◌+◌, ◌≤◌, length};

use block::Verdict;
use layout::Layout;
use patrol::Report;
use refusal::Refusal;
use words::REPORT_WORDS;

// The number stands first, then the report, or the layout of a file.
const REPORT_AT: usize = 1;

// The verdict of a call that has no report stands where a report has its first one: after a block.
const VERDICT_AT: usize = REPORT_AT + 1;

const PLACE_AT: usize = REPORT_AT + REPORT_WORDS;

pub(crate) const ANSWER_WORDS: usize = PLACE_AT + 1;

// The answer of a call that has a number and nothing else, as format.
pub(crate) fn of_done<T>(answer: &Result<T, Refusal>) -> [u32; ANSWER_WORDS] {
    let mut words = [0u32; ANSWER_WORDS];
    words[0] = words::number(answer);
    words
}

// The number of this answer, with these words from `at` on.
fn numbered<T>(answer: &Result<T, Refusal>, at: usize, words: &[u32]) -> [u32; ANSWER_WORDS]
    requires { at + length words.now ≤ ANSWER_WORDS }
{
    let mut all = of_done(answer);
    all[at..at + words.len()].copy_from_slice(words);
    all
}

// What write answers.
pub(crate) fn of_stored(answer: Result<(), Refusal>) -> [u32; ANSWER_WORDS] {
    numbered(&answer, VERDICT_AT, &words::stored_words(answer))
}

// What read and visit answer.
pub(crate) fn of_verdict(answer: Result<Verdict, Refusal>) -> [u32; ANSWER_WORDS] {
    numbered(&answer, VERDICT_AT, &words::answer_words(answer))
}

// What an ask answers, its place; and what the writer of a file does, its bytes.
pub(crate) fn of_count(answer: Result<u32, Refusal>) -> [u32; ANSWER_WORDS] {
    numbered(&answer, PLACE_AT, &words::count_words(answer))
}

// What a turn reports.
pub(crate) fn of_report(answer: Result<Report, Refusal>) -> [u32; ANSWER_WORDS] {
    numbered(&answer, REPORT_AT, &words::report_words(answer))
}

// What a file's header says.
pub(crate) fn of_header(answer: Result<Layout, Refusal>) -> [u32; ANSWER_WORDS] {
    numbered(&answer, REPORT_AT, &words::header_words(answer))
}
