// Granting, releasing and clearing blocks of a heap whose record is held in place.
ghost use Rattle.heap_state.specs.State.{state};
ghost use Rattle.heap.specs.Outcome.{Alloc, Dealloc, ZeroFill, outcome};
ghost use Rattle.heap_held.specs.Held.{Held};

use answers::Answer;
use heap_state::Heap;

pub fn alloc(
    heap: &mut Heap,
    arena: &mut [u64],
    ledger: &mut [u64],
    size: u64,
    align: u64,
) -> Answer
    ensures { Held (outcome (Alloc size align) (state heap.old arena.old ledger.old)) result heap.new arena.new ledger.new }
{
    let reply = heap::alloc(*heap, arena, ledger, size, align);
    *heap = reply.heap;
    reply.answer
}

pub fn dealloc(
    heap: &mut Heap,
    arena: &mut [u64],
    ledger: &mut [u64],
    address: u64,
    size: u64,
    align: u64,
) -> Answer
    ensures { Held (outcome (Dealloc address size align) (state heap.old arena.old ledger.old)) result heap.new arena.new ledger.new }
{
    let reply = heap::dealloc(*heap, arena, ledger, address, size, align);
    *heap = reply.heap;
    reply.answer
}

pub fn zero_fill(
    heap: &mut Heap,
    arena: &mut [u64],
    ledger: &[u64],
    address: u64,
    size: u64,
    align: u64,
) -> Answer
    ensures { Held (outcome (ZeroFill address size align) (state heap.old arena.old ledger.now)) result heap.new arena.new ledger.now }
{
    let reply = heap::zero_fill(*heap, arena, ledger, address, size, align);
    *heap = reply.heap;
    reply.answer
}
