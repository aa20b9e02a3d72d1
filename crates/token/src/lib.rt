// The smallest parts of a record: bytes, identifiers, strings, data, indices. A reader answers with places of the stream.
#![tactic(auto)]

pub mod byte;
pub mod index;
pub mod known;
pub mod text;

pub use byte::{pass_bytes, read_byte};
pub use index::{pass_optional, pass_present, pass_u32, read_optional, read_present};
pub use known::{
    known_identifier, known_name, known_optional, known_present, known_string, skip_identifier,
    skip_present,
};
pub use text::{
    bytes_of, pass_identifier, read_data, read_identifier, read_raw, read_string, up_to,
};
