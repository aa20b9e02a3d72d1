// The binary format (the standard, chapter 5): emitters of what is already resolved.
#![tactic(auto)]

pub mod instructions;
pub mod names;

pub use instructions::{
    put_block_type, put_depth, put_indirect, put_local, put_memarg, put_type_no,
};
pub use names::{put_export, put_import_name, put_name, put_part};
