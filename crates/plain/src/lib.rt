// The instructions without blocks: each is read, resolved and written.
#![tactic(auto)]

pub mod record;
pub mod turn;

pub use record::plain_record;
pub use turn::go_on;
