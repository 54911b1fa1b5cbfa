// Adding a range of frames once the table was found sound: specs/Adding.antt says what it decides over the blocks. The call for everybody,
// which asks nothing, is that of the crate `frame`.

#![tactic(auto)]

mod add;

pub use add::add_range;
