// Adding bytes to a heap whose record is held in place.
ghost use Rattle.heap_state.specs.State.{state};
ghost use Rattle.heap.specs.Outcome.{Init, AddToHeap, outcome};
ghost use Rattle.heap_held.specs.Held.{Held};

use answers::Answer;
use heap_state::Heap;

pub fn init(heap: &mut Heap, arena: &mut [u64], ledger: &[u64], start: u64, size: u64) -> Answer
    ensures { Held (outcome (Init start size) (state heap.old arena.old ledger.now)) result heap.new arena.new ledger.now }
{
    let reply = heap::init(*heap, arena, ledger, start, size);
    *heap = reply.heap;
    reply.answer
}

pub fn add_to_heap(
    heap: &mut Heap,
    arena: &mut [u64],
    ledger: &[u64],
    start: u64,
    end: u64,
) -> Answer
    ensures { Held (outcome (AddToHeap start end) (state heap.old arena.old ledger.now)) result heap.new arena.new ledger.now }
{
    let reply = heap::add_to_heap(*heap, arena, ledger, start, end);
    *heap = reply.heap;
    reply.answer
}
