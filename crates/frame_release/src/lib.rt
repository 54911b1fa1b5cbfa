// Releasing a block once the table was found sound: specs/Releasing.antt says what it decides over the blocks. The call for everybody,
// which asks nothing, is that of the crate `frame`.

#![tactic(auto)]

mod release;

pub use release::release_block;
