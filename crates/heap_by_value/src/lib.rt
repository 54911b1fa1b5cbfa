// The functions that hold the record in place, for callers that have it by value: each puts the record in a local and lends that.

#![tactic(auto)]

// Kept: they promise what those of `heap` do, but by way of the record held in place: the rules ask for a plain-parameter function above each of those.

ghost use Rattle.heap_state.specs.State.{state, Says};
ghost use Rattle.heap.specs.Outcome.{Init, AddToHeap, Alloc, Dealloc, ZeroFill};
ghost use Rattle.heap.specs.Told.{Told};
ghost use Rattle.heap_held.specs.Held.{making_over};

use heap_state::{Heap, Reply};

pub fn new(h: Heap, arena: &[u64], ledger: &mut [u64], order: u64) -> Reply
    ensures { Says (making_over order (state h arena.now ledger.old)) result arena.now ledger.new }
{
    let mut heap = h;
    let answer = heap_held::new(&mut heap, arena, ledger, order);
    Reply { answer, heap }
}

pub fn init(h: Heap, arena: &mut [u64], ledger: &[u64], start: u64, size: u64) -> Reply
    ensures { Told (Init start size) (state h arena.old ledger.now) result arena.new ledger.now }
{
    let mut heap = h;
    let answer = heap_held::init(&mut heap, arena, ledger, start, size);
    Reply { answer, heap }
}

pub fn add(h: Heap, arena: &mut [u64], ledger: &[u64], start: u64, end: u64) -> Reply
    ensures { Told (AddToHeap start end) (state h arena.old ledger.now) result arena.new ledger.now }
{
    let mut heap = h;
    let answer = heap_held::add_to_heap(&mut heap, arena, ledger, start, end);
    Reply { answer, heap }
}

pub fn alloc(h: Heap, arena: &mut [u64], ledger: &mut [u64], size: u64, align: u64) -> Reply
    ensures { Told (Alloc size align) (state h arena.old ledger.old) result arena.new ledger.new }
{
    let mut heap = h;
    let answer = heap_held::alloc(&mut heap, arena, ledger, size, align);
    Reply { answer, heap }
}

pub fn dealloc(
    h: Heap,
    arena: &mut [u64],
    ledger: &mut [u64],
    address: u64,
    size: u64,
    align: u64,
) -> Reply
    ensures { Told (Dealloc address size align) (state h arena.old ledger.old) result arena.new ledger.new }
{
    let mut heap = h;
    let answer = heap_held::dealloc(&mut heap, arena, ledger, address, size, align);
    Reply { answer, heap }
}

pub fn zero(
    h: Heap,
    arena: &mut [u64],
    ledger: &[u64],
    address: u64,
    size: u64,
    align: u64,
) -> Reply
    ensures { Told (ZeroFill address size align) (state h arena.old ledger.now) result arena.new ledger.now }
{
    let mut heap = h;
    let answer = heap_held::zero_fill(&mut heap, arena, ledger, address, size, align);
    Reply { answer, heap }
}
