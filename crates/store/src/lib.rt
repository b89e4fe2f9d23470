// Blocks in a lent image: the fresh image, write, read and visit.
#![tactic(auto)]

mod clearing;
mod copies;
mod doubt;
mod reading;
mod visiting;
mod writing;

pub use clearing::fresh;
pub use reading::read;
pub use visiting::{visit, visit_accepted};
pub use writing::write;
