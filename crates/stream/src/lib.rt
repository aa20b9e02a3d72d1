// The reading pass: the whole stream to its count of records, or its first fault in byte order.
#![tactic(auto)]

pub mod export;
pub mod pass;

pub use pass::read_all;
