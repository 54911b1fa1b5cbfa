// Granting, releasing and clearing blocks of a heap, for C.
ghost use Rattle.heap_state.specs.State.{state};
ghost use Rattle.heap.specs.Outcome.{Alloc, Dealloc, ZeroFill, outcome};
ghost use Rattle.heap_held_c.specs.Crossed.{Crossed};

use answers_c::{CAnswer, numbers};
use heap_state::Heap;

#[unsafe(no_mangle)]
pub extern "C" fn lavikety_heap_alloc(
    heap: &mut Heap,
    arena: &mut [u64],
    ledger: &mut [u64],
    size: u64,
    align: u64,
) -> CAnswer
    ensures { Crossed (outcome (Alloc size align) (state heap.old arena.old ledger.old)) result.number result.value heap.new arena.new ledger.new }
{
    numbers(heap_held::alloc(heap, arena, ledger, size, align))
}

#[unsafe(no_mangle)]
pub extern "C" fn lavikety_heap_dealloc(
    heap: &mut Heap,
    arena: &mut [u64],
    ledger: &mut [u64],
    address: u64,
    size: u64,
    align: u64,
) -> CAnswer
    ensures { Crossed (outcome (Dealloc address size align) (state heap.old arena.old ledger.old)) result.number result.value heap.new arena.new ledger.new }
{
    numbers(heap_held::dealloc(heap, arena, ledger, address, size, align))
}

#[unsafe(no_mangle)]
pub extern "C" fn lavikety_heap_zero(
    heap: &mut Heap,
    arena: &mut [u64],
    ledger: &[u64],
    address: u64,
    size: u64,
    align: u64,
) -> CAnswer
    ensures { Crossed (outcome (ZeroFill address size align) (state heap.old arena.old ledger.now)) result.number result.value heap.new arena.new ledger.now }
{
    numbers(heap_held::zero_fill(heap, arena, ledger, address, size, align))
}
