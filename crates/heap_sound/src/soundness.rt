// Whether a heap is sound: a test of any record, arena and ledger, so nothing is asked of a caller.
ghost use Rattle.std.specs.Prelude.{◌≡◌};
ghost use Rattle.heap_blocks.specs.Sound.{soundb};

use heap_lists::free_lists;
use heap_pairs::free_apart;
use heap_records::records;
use heap_state::{Heap, ranges_ok};
use words::zeros_from;

// The pairs come last: they are the most work, and go along lists that are known to end.
pub fn sound(h: Heap, arena: &[u64], ledger: &[u64]) -> bool
    ensures { result ≡ soundb h arena.now ledger.now }
{
    if !ranges_ok(h.order, h.count, arena.len(), ledger.len()) {
        return false;
    }
    let Some(free) = free_lists(h.order, &h.heads, arena) else {
        return false;
    };
    let count = h.count as usize;
    let bytes = arena.len() as u64 * Heap::WORD_BYTES;
    let Some(granted) = records(h.order, bytes, &ledger[..count]) else {
        return false;
    };
    if !zeros_from(ledger, count) {
        return false;
    }
    if h.user != granted.user {
        return false;
    }
    if h.allocated != granted.allocated {
        return false;
    }
    if h.total != granted.allocated + free {
        return false;
    }
    free_apart(&h.heads, arena, &ledger[..count])
}
