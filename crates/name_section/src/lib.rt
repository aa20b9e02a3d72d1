// The name section (a custom section of the standard's appendix): the identifiers of functions, parameters and locals, for a debugger.
#![tactic(auto)]

pub mod section;

pub use section::{measure, put_name_section, section_len};
