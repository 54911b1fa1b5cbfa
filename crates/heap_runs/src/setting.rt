// Words and fields put past every rule.
ghost use Rattle.std.specs.Prelude.{cond, ◌≡◌, ◌≤◌, ltb, length, set, Ok};
ghost use Rattle.heap_runs.specs.Run.{machine, heap_with, Fits};
ghost use Rattle.heap_runs.specs.Running.{Does};

use crate::{Lent, Printed, Ran};
use heap_lines::{Cell, Command};
use heap_state::Heap;

fn set_head(class: u64, address: u64, heap: &mut Heap) -> Printed
    ensures value { result ≡ cond (ltb class 33) Printed.Set Printed.BadLine }
    ensures heap_after { heap.new ≡ cond (ltb class 33) (heap_with (Cell.Head class) address heap.old) heap.old }
{
    if class >= 33 {
        return Printed::BadLine;
    }
    heap.heads[class as usize] = address;
    Printed::Set
}

fn set_word(at: u64, word: u64, most: usize, words: &mut [u64]) -> Printed
    requires { most ≤ length words.old }
    ensures value { result ≡ cond (ltb at most) Printed.Set Printed.BadLine }
    ensures words_after { words.new ≡ cond (ltb at most) (set words.old at word) words.old }
{
    if at >= most as u64 {
        return Printed::BadLine;
    }
    words[at as usize] = word;
    Printed::Set
}

// Puts what a line asks for, where it is within what is lent.
pub(crate) fn set(cell: Cell, value: u64, lent: Lent, arena: &mut [u64], ledger: &mut [u64]) -> Ran
    requires { Fits lent arena.old ledger.old }
    ensures does { Does (Ok (Command.Set cell value)) (machine lent arena.old ledger.old) (machine result.lent arena.new ledger.new) result.line }
    ensures fits { Fits result.lent arena.new ledger.new }
{
    let mut heap = lent.heap;
    let line = match cell {
        Cell::Arena(at) => set_word(at, value, lent.words, arena),
        Cell::Ledger(at) => set_word(at, value, lent.records, ledger),
        Cell::Head(class) => set_head(class, value, &mut heap),
        Cell::Count => {
            heap.count = value;
            Printed::Set
        }
        Cell::User => {
            heap.user = value;
            Printed::Set
        }
        Cell::Allocated => {
            heap.allocated = value;
            Printed::Set
        }
        Cell::Total => {
            heap.total = value;
            Printed::Set
        }
        Cell::Order => {
            heap.order = value;
            Printed::Set
        }
    };
    Ran {
        lent: Lent {
            heap,
            words: lent.words,
            records: lent.records,
        },
        line,
    }
}
