// The face for C: the proved calls over lent words and bytes. include/foldgrebe.h declares them, and the archive foldgrebe_c exports them.
#![tactic(auto)]

pub mod file_calls;
pub mod patrol_calls;
pub mod store_calls;
