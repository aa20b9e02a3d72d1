// Signatures: lists of value types in the stream, and the table of types in the work area. A type is five words there: 1 if identifiers
// stand before its parameters (a use brought it) or else 0, the place and count of its parameters, and those of its results. Beside the
// table stand an index over it and the size of the section that is written of it.
#![tactic(auto)]

pub mod entry;
pub mod index;
pub mod list;
pub mod size;
pub mod table;

pub use entry::{Signature, put_type, type_at};
pub use index::clear_index;
pub use list::{is_inline, is_short};
pub use table::{Agreement, agrees, declare_type, find_type, intern_use, param_count, total};
