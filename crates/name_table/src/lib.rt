// Tables of names in the lent work area, three words to an entry: the place of an identifier in the stream, its length (0: none), and its tag, which tells nearly every other name apart by one comparison.
#![tactic(auto)]

pub mod definers;
pub mod entry;
pub mod label;
pub mod name;
pub mod spaces;
pub mod table;

pub use definers::{holder, put_item};
pub use entry::{place_in, put_name};
pub use label::{depth_of, label_depth};
pub use name::{carries, same, tag_of};
pub use spaces::{name_count, table_base};
pub use table::{Table, below, find_name, is_taken, number_in};
