// Whether a block, free or granted, has a byte in a range: list by list, and record by record.
ghost use Rattle.std.specs.Prelude.{◌≡◌, map, ◌≤◌, ◌<◌, length};
ghost use Rattle.ledger.specs.Ledger.{grants};
ghost use Rattle.heap_blocks.specs.Sound.{blk, block_of, free_from};
ghost use Rattle.heap_moves.specs.Moves.{mem};
ghost use Rattle.heap_overlap.specs.Meeting.{meets, meets_block};

use ledger::{address_of, class_of};
use linked_list::{Nodes, iter};

// Whether a block of this size at the address has a byte in [start, end).
fn block_meets(address: u64, size: u64, start: u64, end: u64) -> bool
    ensures { result ≡ meets_block address size start end }
{
    if end <= address {
        return false;
    }
    // by a difference, since the sum of any two numbers may not fit
    if address <= start {
        return start - address < size;
    }
    true
}

// Whether a block of the class, at one of these nodes, has a byte in [start, end), which is not empty.
fn list_meets(mut nodes: Nodes<'_>, class: u64, start: u64, end: u64) -> bool
    requires { (class < 33) × (start < end) }
    ensures { result ≡ meets start end (map (blk class) nodes.entry) }
{
    let size = blocks::size_of(class);
    nodes.any(|node| block_meets(node, size, start, end))
}

// Whether a free block has a byte in [start, end), which is not empty.
pub fn free_meets(heads: &[u64; 33], arena: &[u64], start: u64, end: u64) -> bool
    requires { start < end }
    ensures { result ≡ meets start end (free_from 33 0 (mem heads.now arena.now)) }
{
    for k in 0..33 {
        let nodes = iter(heads[k], arena, arena.len());
        if list_meets(nodes, k as u64, start, end) {
            return true;
        }
    }
    false
}

// Whether a granted block has a byte in [start, end), which is not empty.
// Kept: the ledger comes with its count, since the promise speaks of `grants count ledger`.
pub fn granted_meets(ledger: &[u64], count: u64, start: u64, end: u64) -> bool
    requires { (count ≤ length ledger.now) × (start < end) }
    ensures { result ≡ meets start end (map block_of (grants count ledger.now)) }
{
    ledger[..count as usize].iter().any(|w| block_meets(
        address_of(*w),
        1u64 << class_of(*w),
        start,
        end,
    ))
}
