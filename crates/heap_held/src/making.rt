// Making a heap over a record that is there.
ghost use Rattle.heap_state.specs.State.{state};
ghost use Rattle.heap_held.specs.Held.{Held, making_over};

use answers::Answer;
use heap_state::Heap;

// A refused making keeps the record.
pub fn new(heap: &mut Heap, arena: &[u64], ledger: &mut [u64], order: u64) -> Answer
    ensures { Held (making_over order (state heap.old arena.now ledger.old)) result heap.new arena.now ledger.new }
{
    let made = Heap::new(order, arena, ledger);
    let value = made.answer?;
    *heap = made.heap;
    Ok(value)
}
