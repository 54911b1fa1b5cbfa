// The front of a list, where it is last in, first out.
ghost use Rattle.std.specs.Prelude.{◌≡◌};
ghost use Rattle.linked_list.specs.Links.{empty, pushed, popped, Left};

use super::Taken;
use super::links::{next, set_next};

pub fn is_empty(head: u64) -> bool
    ensures { result ≡ empty head }
{
    head == 0
}

// Puts the item before the list, and answers the new head.
pub fn push(head: u64, arena: &mut [u64], item: u64) -> u64
    ensures { Left (pushed head arena.old item) result arena.new }
{
    set_next(arena, item, head);
    item
}

// Takes the first node off the list; its word stays as it is.
pub fn pop(head: u64, arena: &[u64]) -> Option<Taken>
    ensures { result ≡ popped head arena.now }
{
    if is_empty(head) {
        return None;
    }
    let after = next(arena, head);
    Some(Taken {
        block: head,
        head: after,
    })
}
