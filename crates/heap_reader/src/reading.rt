// The reader itself.
ghost use Rattle.std.specs.Prelude.{◌≡◌};
ghost use Rattle.heap_reader.specs.Reading.{start_of, step_at, first_of};

use super::plain::{start_of, step_at};
use super::{Reader, Step};
use heap_state::Heap;

// A reader of the list of this class.
pub fn open<'a>(h: Heap, arena: &'a [u64], ledger: &[u64], class: u64) -> Reader<'a>
    ensures { (result.arena ≡ arena.entry) × (result.at ≡ (start_of h arena.now ledger.now class).at) × (result.number ≡ (start_of h arena.now ledger.now class).number) }
{
    let s = start_of(h, arena, ledger, class);
    Reader {
        arena: arena,
        at: s.at,
        number: s.number,
    }
}

// The node that the reader yields.
pub fn next<'a>(r: Reader<'a>) -> Step
    ensures { result ≡ step_at r.entry.arena.now r.entry.at r.entry.number }
{
    step_at(r.arena, r.at, r.number)
}

// The reader after that node.
pub fn advance<'a>(r: Reader<'a>) -> Reader<'a>
    ensures { (result.arena ≡ r.entry.arena) × (result.at ≡ (step_at r.entry.arena.now r.entry.at r.entry.number).at) × (result.number ≡ (step_at r.entry.arena.now r.entry.at r.entry.number).number) }
{
    let s = step_at(r.arena, r.at, r.number);
    Reader {
        arena: r.arena,
        at: s.at,
        number: s.number,
    }
}

// The node that a reader with these numbers yields, for callers that hold no reader.
pub fn following(arena: &[u64], at: u64, number: u64) -> Step
    ensures { result ≡ step_at arena.now at number }
{
    next(Reader {
        arena: arena,
        at: at,
        number: number,
    })
}

// The first node of the list of this class, likewise.
pub fn first(h: Heap, arena: &[u64], ledger: &[u64], class: u64) -> Step
    ensures { result ≡ first_of h arena.now ledger.now class }
{
    next(open(h, arena, ledger, class))
}
