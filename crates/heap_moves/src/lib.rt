// The lists of a heap, as a whole call changes them. Only heads and arena are touched; the record's counters and the ledger are the
// caller's. specs/Moves.antt says what each leaves, by the rules of heap_state/specs/Lists.antt.

#![tactic(auto)]

mod moves;

pub use moves::{push_pieces, release_block, take_block};
