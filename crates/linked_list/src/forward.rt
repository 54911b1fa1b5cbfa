// The nodes of a list in order: the Rust's `iter`.
ghost use Rattle.std.specs.Prelude.{◌≡◌};
ghost use Rattle.std.specs.Iterator.{YieldsFirst, item_count};
ghost use Rattle.linked_list.specs.Links.{nodes};

use super::links::next;
use std::marker::Model;

// The nodes that are left. A contract sees their list.
#[derive(Drop)]
pub struct Nodes<'a> {
    arena: &'a [u64],
    node: u64,
    left: usize,
}

impl<'a> Model for Nodes<'a> {
    ghost use Rattle.std.specs.Prelude.{List, ℕ};
    ghost use Rattle.linked_list.specs.Links.{nodes};

    ghost Value = { List ℕ };

    ghost view = { λ a. nodes a.left a.arena.now a.node };
}

// The nodes from the head on, at most so many, since links of a damaged arena may go round.
pub fn iter(head: u64, arena: &[u64], most: usize) -> Nodes<'_>
    ensures { result ≡ nodes most arena.now head }
{
    Nodes {
        arena,
        node: head,
        left: most,
    }
}

impl<'a> Nodes<'a> {
    // The same nodes once more: a clone, which cannot fail.
    pub fn rest(&self) -> Nodes<'a>
        ensures { result ≡ self.now }
    {
        Nodes {
            arena: self.arena,
            node: self.node,
            left: self.left,
        }
    }
}

impl<'a> Iterator for Nodes<'a> {
    type Item = u64;

    ghost next_gives = { YieldsFirst (λ s. s) };

    ghost remaining = { item_count (λ s. s) };

    fn next(&mut self) -> Option<u64> {
        if self.node == 0 || self.left == 0 {
            return None;
        }
        let node = self.node;
        self.node = next(self.arena, node);
        self.left -= 1;
        Some(node)
    }
}
