// The maps of the name section: the names of functions, and those of each function's parameters and locals.
#![tactic(auto)]

pub mod functions;
pub mod map;

pub use functions::put_locals;
pub use map::{Reached, put_functions};
