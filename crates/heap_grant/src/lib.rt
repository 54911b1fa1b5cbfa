// A block granted from a heap that was found sound: specs/Granting.antt says what is decided. The call for everybody, which asks nothing, is
// that of the crate `heap`.

#![tactic(auto)]

mod grant;

pub use grant::grant_bytes;
