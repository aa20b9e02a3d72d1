// The module: its length, and its bytes section by section.
#![tactic(auto)]

pub mod length;
pub mod write;

pub use length::module_len;
pub use write::put_module;
