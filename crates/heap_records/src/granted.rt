// The ledger's records: whether each is well formed, starts where the one before it ends or after, and is a block in its place.
ghost use Rattle.std.specs.Prelude.{◌≡◌, ◌≤◌, length};
ghost use Rattle.ledger.specs.Ledger.{recordb};
ghost use Rattle.heap_blocks.specs.Parts.{nextb, grantedb};
ghost use Rattle.heap_records.specs.Summed.{Summed};

use super::Sums;
use heap_lists::placed;
use ledger::{address_of, class_of, gap_of, requested_of};

// A record's word by itself: its layout, its class, and a block that holds the request.
fn word_ok(order: u64, w: u64) -> bool
    ensures { result ≡ recordb order w }
{
    if gap_of(w) != 0 {
        return false;
    }
    if class_of(w) < 3 {
        return false;
    }
    if class_of(w) >= order {
        return false;
    }
    requested_of(w) <= 1u64 << class_of(w)
}

// A record after one whose block ends at floor, of an arena of so many bytes.
fn record_ok(order: u64, bytes: u64, floor: u64, w: u64) -> bool
    ensures { result ≡ nextb order bytes floor w }
{
    if !word_ok(order, w) {
        return false;
    }
    if address_of(w) < floor {
        return false;
    }
    placed(class_of(w), address_of(w), bytes)
}

// The sums of these records; none where one is wrong.
pub fn records(order: u64, bytes: u64, words: &[u64]) -> Option<Sums>
    requires { (order ≤ 33) × (length words.now ≤ 65535) }
    ensures { Summed (grantedb order bytes 0 words.now) words.now result }
{
    let mut floor: u64 = 0;
    let mut user: u64 = 0;
    let mut allocated: u64 = 0;
    for &w in words {
        if !record_ok(order, bytes, floor, w) {
            return None;
        }
        let size = 1u64 << class_of(w);
        user += requested_of(w);
        allocated += size;
        floor = address_of(w) + size;
    }
    Some(Sums { user, allocated })
}
