// Granting a block, and granting one at a start, once the table was found sound: specs/Granting.antt says what each decides over the
// blocks. The calls for everybody, which ask nothing, are those of the crate `frame`.

#![tactic(auto)]

mod grant;

pub use grant::{grant_block, grant_run};
