// A range of bytes added to a heap that was found sound: specs/Adding.antt says what is decided. The calls for everybody, which ask nothing,
// are those of the crate `heap`.

#![tactic(auto)]

mod add;

pub use add::add_range;
