// The field records 01 to 0A of document 01, by their first bytes.
#![tactic(auto)]

pub mod export;
pub mod segment;
pub mod table;

pub use table::read_field;
