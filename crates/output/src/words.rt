// The words of a rule store.
pub use crate::elements::{emit, emit_copies, push};
