// Numbers in groups of seven bits, low first (LEB128): read from the record stream, and written in their shortest form.
#![tactic(auto)]

pub mod read;
pub mod signed;
pub mod unsigned;

pub use read::{read_u32, read_u64};
pub use signed::{put_i32, put_i64, put_s, put_s33};
pub use unsigned::{group_count, put_u};
