// What a field puts into the sections: up to three entries, each of one section.
#![tactic(auto)]

pub mod entry;
pub mod section;

pub use entry::{Spot, first_of, item_in, second_of, section_of, third_of};
