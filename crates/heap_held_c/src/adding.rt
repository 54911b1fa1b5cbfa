// Adding bytes to a heap, for C.
ghost use Rattle.heap_state.specs.State.{state};
ghost use Rattle.heap.specs.Outcome.{Init, AddToHeap, outcome};
ghost use Rattle.heap_held_c.specs.Crossed.{Crossed};

use answers_c::{CAnswer, numbers};
use heap_state::Heap;

#[unsafe(no_mangle)]
pub extern "C" fn lavikety_heap_init(
    heap: &mut Heap,
    arena: &mut [u64],
    ledger: &[u64],
    start: u64,
    size: u64,
) -> CAnswer
    ensures { Crossed (outcome (Init start size) (state heap.old arena.old ledger.now)) result.number result.value heap.new arena.new ledger.now }
{
    numbers(heap_held::init(heap, arena, ledger, start, size))
}

#[unsafe(no_mangle)]
pub extern "C" fn lavikety_heap_add(
    heap: &mut Heap,
    arena: &mut [u64],
    ledger: &[u64],
    start: u64,
    end: u64,
) -> CAnswer
    ensures { Crossed (outcome (AddToHeap start end) (state heap.old arena.old ledger.now)) result.number result.value heap.new arena.new ledger.now }
{
    numbers(heap_held::add_to_heap(heap, arena, ledger, start, end))
}
