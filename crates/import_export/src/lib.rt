// The entries of types, imports, globals, exports and the start: each emitter resolves what it has to, and then puts its bytes. On an
// empty part it only checks, and measures.
#![tactic(auto)]

pub mod export;
pub mod global;
pub mod import;
pub mod types;

pub use export::{Ends, emit_export, emit_start, put_exports};
pub use global::emit_global;
pub use import::emit_import;
pub use types::put_signature;
