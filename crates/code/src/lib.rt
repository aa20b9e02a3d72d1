// The code of a function: each instruction is read, resolved and written.
#![tactic(auto)]

pub mod block;
pub mod body;
pub mod fold;

pub use body::emit_body;
