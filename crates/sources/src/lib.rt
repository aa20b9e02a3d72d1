// Where an item comes from: it is the module's own, or imported, or made of an inline segment.
#![tactic(auto)]

pub mod import;
pub mod seen;
pub mod source;

pub use import::{read_extern, read_import_name};
pub use seen::{has_room, has_room_for};
pub use source::read_source;
