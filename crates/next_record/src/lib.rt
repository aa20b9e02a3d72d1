// One record at the running place: outside a body a field, inside one an instruction or the body's end.
#![tactic(auto)]

mod fold;
mod head;
pub mod marks;
mod often;
pub mod record;
mod skim;
mod thin;

pub use marks::{with_block, without_block, without_else};
pub use record::{FaultAt, Inside, field_depth, too_many};
pub use thin::{next_field, next_instr};
