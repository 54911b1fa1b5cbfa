// Making a heap: a fresh record, and a ledger of zeros.
ghost use Rattle.std.specs.Prelude.{◌≡◌};
ghost use Rattle.heap_state.specs.State.{Says, making, fresh_heap};

use super::ranges::{lengths_ok, order_ok};
use super::{Heap, Reply};
use answers::Refusal;
use words::clear;

impl Heap {
    // ORDER is 4 to 33.
    pub const MIN_ORDER: u64 = 4;

    pub const MAX_ORDER: u64 = 33;

    // The bytes of a word of the arena.
    pub const WORD_BYTES: u64 = 8;

    pub fn new(order: u64, arena: &[u64], ledger: &mut [u64]) -> Reply
        ensures { Says (making order arena.now ledger.old) result arena.now ledger.new }
    {
        if !order_ok(order) {
            return Reply {
                answer: Err(Refusal::BadOrder),
                heap: fresh(0),
            };
        }
        if !lengths_ok(arena.len(), ledger.len()) {
            return Reply {
                answer: Err(Refusal::BadSize),
                heap: fresh(0),
            };
        }
        clear(ledger);
        Reply {
            answer: Ok(0),
            heap: fresh(order),
        }
    }

    // The same by its other name, as in the Rust.
    pub fn empty(order: u64, arena: &[u64], ledger: &mut [u64]) -> Reply
        ensures { Says (making order arena.now ledger.old) result arena.now ledger.new }
    {
        Heap::new(order, arena, ledger)
    }
}

fn fresh(order: u64) -> Heap
    ensures { result ≡ fresh_heap order }
{
    Heap {
        order: order,
        heads: [0; 33],
        count: 0,
        user: 0,
        allocated: 0,
        total: 0,
    }
}
