// A granted block released, or its words cleared, in a heap that was found sound: specs/Releasing.antt says what is decided. The calls for
// everybody, which ask nothing, are those of the crate `heap`.

#![tactic(auto)]

mod release;

pub use release::{release_bytes, zero_bytes};
