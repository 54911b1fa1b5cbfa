// What the reader does, on the arena and numbers.
ghost use Rattle.std.specs.Prelude.{◌≡◌};
ghost use Rattle.heap_reader.specs.Reading.{start_of, step_at};

use super::Step;
use answers::Refusal;
use heap_state::Heap;
use linked_list::next;

const CLASSES: u64 = 33;

// Where a reader of the list of this class starts; a heap that is not sound is not read.
pub fn start_of(h: Heap, arena: &[u64], ledger: &[u64], class: u64) -> Step
    ensures { result ≡ start_of h arena.now ledger.now class }
{
    if !heap_sound::sound(h, arena, ledger) {
        return Step {
            node: 0,
            at: 0,
            number: u64::from(Refusal::BadState),
        };
    }
    let mut at = 0;
    if class < CLASSES {
        at = h.heads[class as usize];
    }
    Step {
        node: 0,
        at: at,
        number: 0,
    }
}

// One step of a reader that has come to this address.
pub fn step_at(arena: &[u64], at: u64, number: u64) -> Step
    ensures { result ≡ step_at arena.now at number }
{
    if number != 0 {
        return Step {
            node: 0,
            at: 0,
            number: number,
        };
    }
    if at == 0 {
        return Step {
            node: 0,
            at: 0,
            number: 0,
        };
    }
    Step {
        node: at,
        at: next(arena, at),
        number: 0,
    }
}
