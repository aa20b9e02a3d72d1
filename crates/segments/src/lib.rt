// The entries of element and data segments.
#![tactic(auto)]

pub mod data_segment;
pub mod elem_segment;

pub use data_segment::{emit_data, put_inline_data};
pub use elem_segment::{emit_elem, emit_inline_elem};
