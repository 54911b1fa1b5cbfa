// The public calls on a heap over an arena, named as in the Rust: each tests the heap first and refuses with 3, then does the work by the
// parts in `heap_add`, `heap_grant` and `heap_release`. The record goes in and comes out by value. None asks anything of its caller;
// specs/Outcome.antt says what each answers and leaves. A heap is made by `Heap::new` or `Heap::empty` of `heap_state`.

#![tactic(auto)]

// Kept: record, arena and ledger stay parameters of their own, since `&` or `&mut` says of each whether a call may change it; a struct of the three would not.
// Size and alignment are two numbers, as C passes them: a struct would be made at each call to be taken apart in it.

ghost use Rattle.heap_state.specs.State.{state};
ghost use Rattle.heap.specs.Outcome.{Init, AddToHeap, Alloc, Dealloc, ZeroFill, StatsAllocUser, StatsAllocActual, StatsTotalBytes};
ghost use Rattle.heap.specs.Told.{Told, Read};

use answers::{Answer, Refusal};
use heap_core::refused;
use heap_state::{Heap, Reply};

// Adds the `size` bytes from `start` on.
pub fn init(h: Heap, arena: &mut [u64], ledger: &[u64], start: u64, size: u64) -> Reply
    ensures { Told (Init start size) (state h arena.old ledger.now) result arena.new ledger.now }
{
    if !heap_sound::sound(h, arena, ledger) {
        return refused(h, Refusal::BadState);
    }
    // an end that is no number of 64 bits is above every arena
    let Some(past) = start.checked_add(size) else {
        return refused(h, Refusal::BadRange);
    };
    heap_add::add_range(h, arena, ledger, start, past)
}

// Adds the bytes [start, end).
pub fn add_to_heap(h: Heap, arena: &mut [u64], ledger: &[u64], start: u64, end: u64) -> Reply
    ensures { Told (AddToHeap start end) (state h arena.old ledger.now) result arena.new ledger.now }
{
    if !heap_sound::sound(h, arena, ledger) {
        return refused(h, Refusal::BadState);
    }
    heap_add::add_range(h, arena, ledger, start, end)
}

// Grants a block for `size` bytes at a multiple of `align`, and answers its address.
pub fn alloc(h: Heap, arena: &mut [u64], ledger: &mut [u64], size: u64, align: u64) -> Reply
    ensures { Told (Alloc size align) (state h arena.old ledger.old) result arena.new ledger.new }
{
    if !heap_sound::sound(h, arena, ledger) {
        return refused(h, Refusal::BadState);
    }
    heap_grant::grant_bytes(h, arena, ledger, size, align)
}

// Releases the block that was granted at the address for this size and alignment, and answers how many nodes were compared with its buddies.
pub fn dealloc(
    h: Heap,
    arena: &mut [u64],
    ledger: &mut [u64],
    address: u64,
    size: u64,
    align: u64,
) -> Reply
    ensures { Told (Dealloc address size align) (state h arena.old ledger.old) result arena.new ledger.new }
{
    if !heap_sound::sound(h, arena, ledger) {
        return refused(h, Refusal::BadState);
    }
    heap_release::release_bytes(h, arena, ledger, address, size, align)
}

// Clears the words of the bytes that were asked for, of the block that was granted at the address for this size and alignment.
pub fn zero_fill(
    h: Heap,
    arena: &mut [u64],
    ledger: &[u64],
    address: u64,
    size: u64,
    align: u64,
) -> Reply
    ensures { Told (ZeroFill address size align) (state h arena.old ledger.now) result arena.new ledger.now }
{
    if !heap_sound::sound(h, arena, ledger) {
        return refused(h, Refusal::BadState);
    }
    heap_release::zero_bytes(h, arena, ledger, address, size, align)
}

// The bytes that were asked for, of all that is granted.
pub fn stats_alloc_user(h: Heap, arena: &[u64], ledger: &[u64]) -> Answer
    ensures { Read StatsAllocUser h arena.now ledger.now result }
{
    if !heap_sound::sound(h, arena, ledger) {
        return Err(Refusal::BadState);
    }
    Ok(h.user)
}

// The bytes of the blocks that are granted.
pub fn stats_alloc_actual(h: Heap, arena: &[u64], ledger: &[u64]) -> Answer
    ensures { Read StatsAllocActual h arena.now ledger.now result }
{
    if !heap_sound::sound(h, arena, ledger) {
        return Err(Refusal::BadState);
    }
    Ok(h.allocated)
}

// The bytes of all blocks, free and granted.
pub fn stats_total_bytes(h: Heap, arena: &[u64], ledger: &[u64]) -> Answer
    ensures { Read StatsTotalBytes h arena.now ledger.now result }
{
    if !heap_sound::sound(h, arena, ledger) {
        return Err(Refusal::BadState);
    }
    Ok(h.total)
}
