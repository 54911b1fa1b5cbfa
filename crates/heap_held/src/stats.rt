// The three counts of a heap whose record is held in place.
ghost use Rattle.heap.specs.Outcome.{StatsAllocUser, StatsAllocActual, StatsTotalBytes};
ghost use Rattle.heap.specs.Told.{Read};

use answers::Answer;
use heap_state::Heap;

pub fn stats_alloc_user(heap: &Heap, arena: &[u64], ledger: &[u64]) -> Answer
    ensures { Read StatsAllocUser heap.now arena.now ledger.now result }
{
    heap::stats_alloc_user(*heap, arena, ledger)
}

pub fn stats_alloc_actual(heap: &Heap, arena: &[u64], ledger: &[u64]) -> Answer
    ensures { Read StatsAllocActual heap.now arena.now ledger.now result }
{
    heap::stats_alloc_actual(*heap, arena, ledger)
}

pub fn stats_total_bytes(heap: &Heap, arena: &[u64], ledger: &[u64]) -> Answer
    ensures { Read StatsTotalBytes heap.now arena.now ledger.now result }
{
    heap::stats_total_bytes(*heap, arena, ledger)
}
