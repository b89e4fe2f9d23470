// The patrol: a record that is handed in and comes back, the call that makes it, and its two methods.
#![tactic(auto)]

mod asking;
mod formatting;
mod turning;

use block::Verdict;
pub use formatting::format;
use layout::Layout;
use refusal::Refusal;
use rota::Rota;

// The layout that the store was formatted with, and whose go it is.
#[derive(Clone, Copy, Debug, PartialEq, Eq)]
pub struct Record {
    pub layout: Layout,
    pub rota: Rota,
}

// What format answers: whether it is done, and the record, which is of zeros where it is refused.
#[derive(Clone, Copy, Debug, PartialEq, Eq)]
pub struct Formatted {
    pub done: Result<(), Refusal>,
    pub back: Record,
}

// What an ask answers: the block's place, and the record.
#[derive(Clone, Copy, Debug, PartialEq, Eq)]
pub struct Asked {
    pub place: Result<u32, Refusal>,
    pub back: Record,
}

// What a turn answers: its report, and the record.
#[derive(Clone, Copy, Debug, PartialEq, Eq)]
pub struct Turned {
    pub report: Result<Report, Refusal>,
    pub back: Record,
}

// A block that was visited, and what was found of it.
#[derive(Clone, Copy, Debug, PartialEq, Eq)]
pub struct Visit {
    pub block: u32,
    pub verdict: Verdict,
}

// What a turn reports: the patrol's visit, and the ask's where one was served.
#[derive(Clone, Copy, Debug, PartialEq, Eq)]
pub struct Report {
    pub patrol: Visit,
    pub ask: Option<Visit>,
}
