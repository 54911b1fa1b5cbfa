// Lists of free blocks, threaded through the words of a lent arena: an address is a byte offset in it, 0 is null, and a node's word holds
// the next node's address. A list is its head. Nothing is asked of a caller: a read outside the arena is 0, a store outside does nothing.

#![tactic(auto)]

mod forward;
mod front;
mod links;
mod walk;

pub use forward::{Nodes, iter};
pub use front::{is_empty, pop, push};
pub use links::next;
pub use walk::{find, remove};

// A block off the front of a list, and the head that is left.
#[derive(Clone, Copy)]
pub struct Taken {
    pub block: u64,
    pub head: u64,
}

// Kept: the rules ask for the place of the previous link as an enum (docs/DECISIONS.md, "Language forms"), a head or a word.
// The place of the link to a node: the list's head, or the word of the node at this address.
#[derive(Clone, Copy)]
pub enum Previous {
    Head,
    Word(u64),
}

// Kept: the place of the last link is promised where the node is not there too, so it stands beside the flag and not in an Option.
// What a search found: whether the node is there, the place of the last link that was followed, and how many nodes were compared.
#[derive(Clone, Copy)]
pub struct Search {
    pub found: bool,
    pub previous: Previous,
    pub compared: u64,
}
