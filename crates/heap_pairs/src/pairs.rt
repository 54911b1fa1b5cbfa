// Whether blocks are disjoint: each free block is compared in pairs with every block after it, free or granted. (Granted blocks stand in
// the order of their addresses, so among themselves each is compared with the one before it, when the records are read.)
ghost use Rattle.std.specs.Prelude.{◌≡◌, ◌||◌, ◌++◌, ◌+◌, ◌≤◌, ◌<◌, leb, length, get_or};
ghost use Rattle.heap_blocks.specs.Sound.{blk, apart_from};
ghost use Rattle.heap_blocks.specs.Parts.{list_blocks, free_up, blocks_of};
ghost use Rattle.heap_pairs.specs.Pairs.{later_blocks, crossb};

use ledger::{address_of, class_of};
use linked_list::next;

// Two blocks have no byte in common; by differences, which fit where sums may not.
fn apart(a: u64, size: u64, b: u64, other: u64) -> bool
    requires { (0 < size) × (0 < other) }
    ensures { result ≡ leb (a + size) b || leb (b + other) a }
{
    if a <= b {
        return size <= b - a;
    }
    other <= a - b
}

// Kept: `class < 64` stands as it is in each contract: it is the bound of a shift, and a name for it would be no shorter.
// Kept: this loop and that of `class_apart` count their nodes by hand: over `linked_list::iter` the test of a heap takes 1.65 to 1.82 times the Rust's at 100
// blocks, where 1.5 is wanted and these loops take 1.42 to 1.52.
// A block and the blocks of a list from a node on, at most so many.
fn apart_from_list(
    class: u64,
    address: u64,
    other: u64,
    head: u64,
    arena: &[u64],
    most: usize,
) -> bool
    requires { (class < 64) × (other < 64) }
    ensures { result ≡ apart_from (blk class address) (list_blocks other most arena.now head) }
{
    let size = 1u64 << class;
    let bytes = 1u64 << other;
    let mut node = head;
    let mut left = most;
    while node != 0 {
        if left == 0 {
            return true;
        }
        if !apart(address, size, node, bytes) {
            return false;
        }
        left -= 1;
        node = next(arena, node);
    }
    true
}

// A block and the lists of the classes from `from` on.
fn apart_from_lists(class: u64, address: u64, from: usize, heads: &[u64; 33], arena: &[u64]) -> bool
    requires { class < 64 }
    ensures { result ≡ apart_from (blk class address) (free_up from heads.now arena.now) }
{
    for other in from..33 {
        // most lists are empty, and a look at the head is all that such a one costs
        if heads[other] == 0 {
            continue;
        }
        let head = heads[other];
        if !apart_from_list(class, address, other as u64, head, arena, arena.len()) {
            return false;
        }
    }
    true
}

// A block and the granted ones.
fn apart_from_records(class: u64, address: u64, records: &[u64]) -> bool
    requires { class < 64 }
    ensures { result ≡ apart_from (blk class address) (blocks_of records.now) }
{
    let size = 1u64 << class;
    records.iter().all(|w| apart(address, size, address_of(*w), 1u64 << class_of(*w)))
}

// A node of a list and every block after it: the nodes after it, the lists of higher classes, and the granted blocks.
fn node_apart(
    class: usize,
    node: u64,
    after: u64,
    left: usize,
    heads: &[u64; 33],
    arena: &[u64],
    records: &[u64],
) -> bool
    requires { class < 33 }
    ensures { result ≡ apart_from (blk class node) (list_blocks class left arena.now after ++ later_blocks class heads.now arena.now records.now) }
{
    if !apart_from_list(class as u64, node, class as u64, after, arena, left) {
        return false;
    }
    if !apart_from_lists(class as u64, node, class + 1, heads, arena) {
        return false;
    }
    apart_from_records(class as u64, node, records)
}

// Each node of a class's list and every block after it.
fn class_apart(class: usize, heads: &[u64; 33], arena: &[u64], records: &[u64]) -> bool
    requires { class < 33 }
    ensures { result ≡ crossb (list_blocks class (length arena.now) arena.now (get_or heads.now class 0)) (later_blocks class heads.now arena.now records.now) }
{
    let mut left = arena.len();
    let mut node = heads[class];
    while node != 0 {
        if left == 0 {
            return true;
        }
        left -= 1;
        let after = next(arena, node);
        if !node_apart(class, node, after, left, heads, arena, records) {
            return false;
        }
        node = after;
    }
    true
}

// Each free block and every block after it.
pub fn free_apart(heads: &[u64; 33], arena: &[u64], records: &[u64]) -> bool
    ensures { result ≡ crossb (free_up 0 heads.now arena.now) (blocks_of records.now) }
{
    for class in 0..33 {
        if !class_apart(class, heads, arena, records) {
            return false;
        }
    }
    true
}
