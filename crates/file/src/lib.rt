// The image file, both ways: its header, its refusals and its words.
#![tactic(auto)]

mod reading;
mod refusals;
mod writing;

pub use reading::{read_file, read_header, word_count};
pub use writing::write_file;
