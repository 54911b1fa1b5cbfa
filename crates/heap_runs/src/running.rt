// A command run on the heap that is lent.
ghost use Rattle.std.specs.Prelude.{◌≡◌, Ok};
ghost use Rattle.heap_state.specs.State.{state};
ghost use Rattle.heap.specs.Told.{Told};
ghost use Rattle.heap_runs.specs.Run.{machine, call_of, Fits};
ghost use Rattle.heap_runs.specs.Running.{machine_of, replied_with, Does, Figured};

use crate::setting::set;
use crate::walking::list;
use crate::{Lent, Machine, Printed, Ran};
use grammar::BadLine;
use heap_lines::{Call, Command};
use heap_state::{Heap, Reply};

const ARENA_WORDS: u64 = 4096;

const LEDGER_WORDS: u64 = 512;

fn replied(reply: Reply, words: usize, records: usize) -> Ran
    ensures { result ≡ replied_with reply words records }
{
    Ran {
        lent: Lent {
            heap: reply.heap,
            words,
            records,
        },
        line: Printed::Reply(reply.answer),
    }
}

// A call on the words that are lent.
fn called(call: Call, heap: Heap, arena: &mut [u64], ledger: &mut [u64]) -> Reply
    ensures { Told (call_of call) (state heap arena.old ledger.old) result arena.new ledger.new }
{
    match call {
        Call::Add(start, end) => heap::add_to_heap(heap, arena, ledger, start, end),
        Call::Init(start, size) => heap::init(heap, arena, ledger, start, size),
        Call::Alloc(size, align) => heap::alloc(heap, arena, ledger, size, align),
        Call::Free(at, size, align) => heap::dealloc(heap, arena, ledger, at, size, align),
        Call::Zero(at, size, align) => heap::zero_fill(heap, arena, ledger, at, size, align),
    }
}

fn call(call: Call, lent: Lent, arena: &mut [u64], ledger: &mut [u64]) -> Ran
    requires { Fits lent arena.old ledger.old }
    ensures does { Does (Ok (Command.Call call)) (machine lent arena.old ledger.old) (machine result.lent arena.new ledger.new) result.line }
    ensures fits { Fits result.lent arena.new ledger.new }
{
    let n = lent.words;
    let k = lent.records;
    let reply = called(call, lent.heap, &mut arena[..n], &mut ledger[..k]);
    replied(reply, n, k)
}

// Makes a heap over the first words of both; the words are cleared only once it is made, so that nothing is lost where it is refused.
fn make(
    order: u64,
    words: u64,
    records: u64,
    lent: Lent,
    arena: &mut [u64],
    ledger: &mut [u64],
) -> Ran
    requires { Fits lent arena.old ledger.old }
    ensures does { Does (Ok (Command.Make order words records)) (machine lent arena.old ledger.old) (machine result.lent arena.new ledger.new) result.line }
    ensures fits { Fits result.lent arena.new ledger.new }
{
    if words > ARENA_WORDS {
        return Ran {
            lent,
            line: Printed::BadLine,
        };
    }
    if records > LEDGER_WORDS {
        return Ran {
            lent,
            line: Printed::BadLine,
        };
    }
    let n = words as usize;
    let k = records as usize;
    let reply = Heap::new(order, &arena[..n], &mut ledger[..k]);
    // Kept: by its number, as the definition `after_making` asks it.
    if answers::number(reply.answer) != 0 {
        return replied(reply, lent.words, lent.records);
    }
    words::clear(&mut arena[..n]);
    replied(reply, n, k)
}

fn remake(order: u64, lent: Lent, arena: &[u64], ledger: &mut [u64]) -> Ran
    requires { Fits lent arena.now ledger.old }
    ensures does { Does (Ok (Command.Remake order)) (machine lent arena.now ledger.old) (machine result.lent arena.now ledger.new) result.line }
    ensures fits { Fits result.lent arena.now ledger.new }
{
    let n = lent.words;
    let k = lent.records;
    let reply = Heap::new(order, &arena[..n], &mut ledger[..k]);
    replied(reply, n, k)
}

fn figures(heap: Heap, arena: &[u64], ledger: &[u64]) -> Printed
    ensures { Figured (state heap arena.now ledger.now) result }
{
    let user = heap::stats_alloc_user(heap, arena, ledger);
    let allocated = heap::stats_alloc_actual(heap, arena, ledger);
    let total = heap::stats_total_bytes(heap, arena, ledger);
    Printed::Figures(user, allocated, total)
}

fn stats(lent: Lent, arena: &[u64], ledger: &[u64]) -> Ran
    requires { Fits lent arena.now ledger.now }
    ensures does { Does (Ok Command.Stats) (machine lent arena.now ledger.now) (machine result.lent arena.now ledger.now) result.line }
    ensures fits { Fits result.lent arena.now ledger.now }
{
    let n = lent.words;
    let k = lent.records;
    let line = figures(lent.heap, &arena[..n], &ledger[..k]);
    Ran { lent, line }
}

// Runs the command that a line is on words that lie anywhere, and tells what is lent then and what is to be printed.
pub fn run(
    command: Result<Command, BadLine>,
    lent: Lent,
    arena: &mut [u64],
    ledger: &mut [u64],
) -> Ran
    requires { Fits lent arena.old ledger.old }
    ensures does { Does command (machine lent arena.old ledger.old) (machine result.lent arena.new ledger.new) result.line }
    ensures fits { Fits result.lent arena.new ledger.new }
{
    match command {
        Ok(Command::Make(order, words, records)) => make(
            order, words, records, lent, arena, ledger,
        ),
        Ok(Command::Remake(order)) => remake(order, lent, arena, ledger),
        Ok(Command::Call(on)) => call(on, lent, arena, ledger),
        Ok(Command::List(class)) => list(class, lent, arena, ledger),
        Ok(Command::Stats) => stats(lent, arena, ledger),
        Ok(Command::Set(cell, value)) => set(cell, value, lent, arena, ledger),
        Err(BadLine) => Ran {
            lent,
            line: Printed::BadLine,
        },
    }
}

impl Machine {
    // The same on the machine's own words.
    pub fn run(&mut self, command: Result<Command, BadLine>) -> Printed
        ensures { Does command (machine_of self.old) (machine_of self.new) result }
    {
        let ran = run(command, self.lent, &mut self.arena, &mut self.ledger);
        self.lent = ran.lent;
        ran.line
    }
}
