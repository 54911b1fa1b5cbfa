// Adding a range of bytes: the tests of the range, and its blocks pushed.
ghost use Rattle.std.specs.Prelude.{◌≡◌, true, ◌*◌, ◌≤◌, ◌<◌, length};
ghost use Rattle.heap_blocks.specs.Sound.{soundb};
ghost use Rattle.heap_state.specs.State.{state};
ghost use Rattle.heap_add.specs.Adding.{adding};
ghost use Rattle.heap_core.specs.Deciding.{Carries};
ghost use Rattle.heap_add.specs.Parts.{adding_words};

use answers::Refusal;
use heap_core::refused;
use heap_overlap::{free_meets, granted_meets};
use heap_state::{Heap, Reply};

// The bytes [start, end), rounded to words, are added to a sound heap.
pub fn add_range(h: Heap, arena: &mut [u64], ledger: &[u64], start: u64, end: u64) -> Reply
    requires { soundb h arena.old ledger.now ≡ true }
    ensures { Carries (state h arena.old ledger.now) (adding start end (state h arena.old ledger.now)) result arena.new ledger.now }
{
    let bytes = arena.len() as u64 * 8;
    if bytes < start {
        return refused(h, Refusal::BadRange);
    }
    if bytes < end {
        return refused(h, Refusal::BadRange);
    }
    let from = (start + 7) / 8 * 8;
    let to = end / 8 * 8;
    if to < from {
        return refused(h, Refusal::BadRange);
    }
    // an empty range is accepted anywhere, inside a block too
    if from == to {
        return Reply {
            answer: Ok(0),
            heap: h,
        };
    }
    if from == 0 {
        return refused(h, Refusal::NullStart);
    }
    add_words(h, arena, ledger, from, to)
}

// The bytes [from, to), whole words and not none, are added if none of them is there already.
fn add_words(h: Heap, arena: &mut [u64], ledger: &[u64], from: u64, to: u64) -> Reply
    requires { (soundb h arena.old ledger.now ≡ true) × (from < to) × (to ≤ length arena.old * 8) }
    ensures { Carries (state h arena.old ledger.now) (adding_words from to (state h arena.old ledger.now)) result arena.new ledger.now }
{
    if free_meets(&h.heads, arena, from, to) {
        return refused(h, Refusal::Overlap);
    }
    if granted_meets(ledger, h.count, from, to) {
        return refused(h, Refusal::Overlap);
    }
    let mut g = h;
    heap_moves::push_pieces(&mut g.heads, arena, h.order - 1, from, to - from);
    g.total = h.total + (to - from);
    Reply {
        answer: Ok(0),
        heap: g,
    }
}
