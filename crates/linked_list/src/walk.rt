// A walk along a list, and the removal of a node from within it: the Rust's `iter_mut`.
ghost use Rattle.std.specs.Prelude.{◌≡◌};
ghost use Rattle.linked_list.specs.Links.{nodes, removed, searched, Left};

use super::forward::iter;
use super::links::{next, set_next};
use super::{Previous, Search};

// Looks for a node from the head on, among at most so many nodes, since links of a damaged arena may go round.
pub fn find(head: u64, arena: &[u64], wanted: u64, most: u64) -> Search
    ensures { result ≡ searched wanted (nodes most arena.now head) }
{
    let mut search = Search {
        found: false,
        previous: Previous::Head,
        compared: 0,
    };
    for node in iter(head, arena, most as usize) {
        search.compared += 1;
        if node == wanted {
            search.found = true;
            return search;
        }
        search.previous = Previous::Word(node);
    }
    search
}

// Takes the node out of the list by the place of the link to it, and answers the list's head, a new one where that link was the head.
pub fn remove(head: u64, arena: &mut [u64], previous: Previous, node: u64) -> u64
    ensures { Left (removed head arena.old previous node) result arena.new }
{
    let after = next(arena, node);
    match previous {
        Previous::Head => after,
        Previous::Word(before) => {
            set_next(arena, before, after);
            head
        }
    }
}
