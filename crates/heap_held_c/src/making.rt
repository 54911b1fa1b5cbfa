// Making a heap, for C.
ghost use Rattle.heap_state.specs.State.{state};
ghost use Rattle.heap_held.specs.Held.{making_over};
ghost use Rattle.heap_held_c.specs.Crossed.{Crossed};

use answers_c::{CAnswer, numbers};
use heap_state::Heap;

#[unsafe(no_mangle)]
pub extern "C" fn lavikety_heap_new(
    heap: &mut Heap,
    arena: &[u64],
    ledger: &mut [u64],
    order: u64,
) -> CAnswer
    ensures { Crossed (making_over order (state heap.old arena.now ledger.old)) result.number result.value heap.new arena.now ledger.new }
{
    numbers(heap_held::new(heap, arena, ledger, order))
}
