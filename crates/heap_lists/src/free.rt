// The lists of free blocks: whether each is a list of blocks in their place, and the bytes of all.
ghost use Rattle.std.specs.Prelude.{◌≡◌, ◌≤◌, ◌<◌, length};
ghost use Rattle.heap_blocks.specs.Sound.{bytes_of};
ghost use Rattle.heap_blocks.specs.Parts.{blockb, free_up, freeb};
ghost use Rattle.heap_lists.specs.Tallied.{InRange, Tallied, Walked, Classed};

use heap_state::Heap;
use linked_list::iter;

// A block of the class is aligned, above address 0, and ends within so many bytes. By a mask, since a division by a variable is slow.
pub fn placed(class: u64, address: u64, bytes: u64) -> bool
    requires { class < 64 }
    ensures { result ≡ blockb bytes class address }
{
    let size = 1u64 << class;
    if address & (size - 1) != 0 {
        return false;
    }
    if address == 0 {
        return false;
    }
    if address > bytes {
        return false;
    }
    size <= bytes - address
}

// Walks a list as far as it may go, fewer nodes than the arena has words, and adds up its blocks; none where the list is wrong.
fn walk(class: u64, head: u64, arena: &[u64]) -> Option<u64>
    requires { (class ≤ 32) × (1 ≤ length arena.now) × (length arena.now ≤ 1048576) }
    ensures { Walked class head arena.now result }
{
    let size = 1u64 << class;
    let end = arena.len() as u64 * Heap::WORD_BYTES;
    let mut bytes: u64 = 0;
    for (before, node) in iter(head, arena, arena.len()).enumerate() {
        if before + 1 == arena.len() {
            return None;
        }
        if !placed(class, node, end) {
            return None;
        }
        bytes += size;
    }
    Some(bytes)
}

// One class: a list only where the class may have one.
fn class_list(order: u64, class: u64, head: u64, arena: &[u64]) -> Option<u64>
    requires { InRange order arena.now }
    ensures { Classed order class head arena.now result }
{
    if head == 0 {
        return Some(0);
    }
    if class < 3 {
        return None;
    }
    if class >= order {
        return None;
    }
    walk(class, head, arena)
}

// The lists of all classes, and their bytes.
pub fn free_lists(order: u64, heads: &[u64; 33], arena: &[u64]) -> Option<u64>
    requires { InRange order arena.now }
    ensures { Tallied (freeb order 0 heads.now arena.now) (bytes_of (free_up 0 heads.now arena.now)) result }
{
    let mut bytes: u64 = 0;
    for (class, head) in heads.iter().enumerate() {
        bytes += class_list(order, class as u64, *head, arena)?;
    }
    Some(bytes)
}
