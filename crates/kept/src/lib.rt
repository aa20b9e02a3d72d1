// The kept bytes: an entry emitted into its section's part of them, and how large the sections are.
#![tactic(auto)]

pub mod entry;
pub mod parts;
pub mod tally;

// Entries go to sections 0 to 11: each has its slot in the tally, and its part of the kept bytes. The data count has none: its number is the tally's
// count of data segments.
pub const SECTIONS: usize = 12;

pub use entry::emit_entry;
pub use parts::{emit_kept, start_of};
pub use tally::Tally;
