// The field records of types, imports and items, and what they share with the others.
#![tactic(auto)]

pub mod export;
pub mod item;
pub mod segment;

pub use export::read_kind;
pub use segment::read_mode;
