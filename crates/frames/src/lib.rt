// What is written into the work area while a function is resolved: its locals, and the labels of its open blocks.
#![tactic(auto)]

pub mod labels;
pub mod locals;

pub use labels::open_block;
pub use locals::set_locals;
