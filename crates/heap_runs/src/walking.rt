// The list of a class, read from its head on.
ghost use Rattle.std.specs.Prelude.{◌≡◌, length, Ok};
ghost use Rattle.heap_state.specs.State.{state};
ghost use Rattle.linked_list.specs.Links.{nodes};
ghost use Rattle.heap_runs.specs.Run.{machine, Fits};
ghost use Rattle.heap_runs.specs.Running.{Does, Lists};

use crate::{Lent, Printed, Ran};
use answers::Refusal;
use heap_lines::Command;
use heap_reader::{first, following};
use heap_state::Heap;
use std::iter::successors;

fn count_nodes(head: u64, arena: &[u64]) -> usize
    ensures { result ≡ length (nodes (length arena.now) arena.now head) }
{
    successors(Some(head), |at| Some(following(arena, *at, 0).at))
        .take(arena.len())
        .take_while(|at| *at != 0)
        .count()
}

fn nodes_of(class: u64, heap: Heap, arena: &[u64], ledger: &[u64]) -> Printed
    ensures { Lists class (state heap arena.now ledger.now) result }
{
    let start = first(heap, arena, ledger, class);
    // Kept: by its number, as the theorems on the reader say it.
    if start.number != 0 {
        return Printed::Reply(Err(Refusal::BadState));
    }
    Printed::Nodes(start.node, count_nodes(start.node, arena))
}

pub(crate) fn list(class: u64, lent: Lent, arena: &[u64], ledger: &[u64]) -> Ran
    requires { Fits lent arena.now ledger.now }
    ensures does { Does (Ok (Command.List class)) (machine lent arena.now ledger.now) (machine result.lent arena.now ledger.now) result.line }
    ensures fits { Fits result.lent arena.now ledger.now }
{
    let n = lent.words;
    let k = lent.records;
    let line = nodes_of(class, lent.heap, &arena[..n], &ledger[..k]);
    Ran { lent, line }
}
