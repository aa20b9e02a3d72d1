// What entries and instructions have in common: operands, lists of functions or labels, and constants. Each emitter resolves what it has to,
// and then puts its bytes.
#![tactic(auto)]

pub mod constant;
pub mod indices;
pub mod items;
pub mod operand;

pub use constant::{emit_const, put_zero_offset};
pub use indices::{count_indices, emit_funcs, emit_number};
pub use operand::{emit_item, emit_label, emit_local, emit_plain};
