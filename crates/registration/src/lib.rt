// Registration (the crate's names.rs): the items of a field, each in the name table of its index space.
#![tactic(auto)]

pub mod item;

pub use item::register_field;
