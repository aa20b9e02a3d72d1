// What names mean in a module, by the work area: every index becomes a number (the crate's names.rs).
#![tactic(auto)]

pub mod item;
pub mod label;
pub mod local;
pub mod types;

pub use item::item_no;
pub use label::{closes, depth_no};
pub use local::local_no;
pub use types::{block_type, type_no};

// The locals of a function: how many nameless places come first, and how many entries follow.
#[derive(Clone, Copy)]
pub struct Locals {
    pub nameless: u32,
    pub count: u32,
}
