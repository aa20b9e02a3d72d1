// The entries of one section: those of the fields, and of section 1 the types of the table.
#![tactic(auto)]

pub mod contents;
pub mod types;

pub use contents::emit_fields;
pub use types::put_types;
