// The three counts of a heap, for C.
ghost use Rattle.heap_state.specs.State.{state};
ghost use Rattle.heap.specs.Outcome.{StatsAllocUser, StatsAllocActual, StatsTotalBytes, outcome};
ghost use Rattle.heap_held_c.specs.Crossed.{Crossed};

use answers_c::{CAnswer, numbers};
use heap_state::Heap;

#[unsafe(no_mangle)]
pub extern "C" fn lavikety_heap_stats_alloc_user(
    heap: &Heap,
    arena: &[u64],
    ledger: &[u64],
) -> CAnswer
    ensures { Crossed (outcome StatsAllocUser (state heap.now arena.now ledger.now)) result.number result.value heap.now arena.now ledger.now }
{
    numbers(heap_held::stats_alloc_user(heap, arena, ledger))
}

#[unsafe(no_mangle)]
pub extern "C" fn lavikety_heap_stats_alloc_actual(
    heap: &Heap,
    arena: &[u64],
    ledger: &[u64],
) -> CAnswer
    ensures { Crossed (outcome StatsAllocActual (state heap.now arena.now ledger.now)) result.number result.value heap.now arena.now ledger.now }
{
    numbers(heap_held::stats_alloc_actual(heap, arena, ledger))
}

#[unsafe(no_mangle)]
pub extern "C" fn lavikety_heap_stats_total_bytes(
    heap: &Heap,
    arena: &[u64],
    ledger: &[u64],
) -> CAnswer
    ensures { Crossed (outcome StatsTotalBytes (state heap.now arena.now ledger.now)) result.number result.value heap.now arena.now ledger.now }
{
    numbers(heap_held::stats_total_bytes(heap, arena, ledger))
}
