// The interning of types: the declared types of a stream, wherever they stand, and those that the uses of a field add, in order of use.
#![tactic(auto)]

pub mod body;
pub mod declared;
pub mod field;
pub mod uses;

pub use declared::declare_all;
pub use field::use_field;
