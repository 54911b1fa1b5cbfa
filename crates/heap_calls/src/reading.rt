// The lines of the input, one after the other, however it is cut into chunks.
ghost use Rattle.std.specs.Prelude.{◌≡◌, ◌≤◌, length, IfOk, IsOk, OnErr, ◌+◌, false};
ghost use Rattle.texts.specs.Output.{Ready, StillReady};
ghost use Rattle.heap_lines.specs.Command.{command_of};
ghost use Rattle.heap_runs.specs.Run.{nothing_lent};
ghost use Rattle.heap_runs.specs.Running.{machine_of};
ghost use Rattle.heap_runs.specs.Text.{is_long};
ghost use Rattle.heap_calls.specs.Running.{line_after, ShownShort, Took, Stopped, Ended};

use heap_lines::command_of;
use heap_listed::put_all;
use heap_runs::{Lent, Machine};
use heap_shown::put_printed;
use heap_state::Heap;
use lines::Held;
use std::io;
use std::io::Read;
use texts::Output;

// Runs a line, and puts what it prints.
fn run_line(rt: &impl Print, line: &[u8], machine: &mut Machine, out: &mut Output) -> io::Result<()>
    requires { Ready out.old }
    ensures ready { StillReady out.old out.new }
    ensures machine_after { machine_of machine.new ≡ line_after line.now (machine_of machine.old) }
    ensures shown_short { IfOk result (λ _. ShownShort line.now (machine_of machine.old) out.old.bytes.now out.new.at out.new.bytes.now) }
    ensures no_error { is_long (command_of line.now) (machine_of machine.old) ≡ false → out.old.at + 160 ≤ length out.old.bytes.now → IsOk result }
{
    let printed = machine.run(command_of(line));
    let n = machine.lent.words;
    out.room(rt)?;
    put_printed(rt, printed, &machine.arena[..n], out)
}

// Kept: as in `calls`, and for the reason given there.
// Runs the lines that end in a chunk; what follows them is held.
fn take_all(
    rt: &impl Print,
    chunk: &[u8],
    held: &mut Held,
    machine: &mut Machine,
    out: &mut Output,
) -> io::Result<()>
    requires { Ready out.old }
    ensures ready { StillReady out.old out.new }
    ensures took { IfOk result (λ _. Took chunk.now held.old.bytes held.old.len (machine_of machine.old) held.new.bytes held.new.len (machine_of machine.new)) }
    ensures stopped { OnErr result (Stopped chunk.now held.old.bytes held.old.len (machine_of machine.old) (machine_of machine.new)) }
{
    let mut from = 0;
    // Kept: a `for` over split pieces is no plainer, since a line begins in one chunk and ends in another: `gather` says where to go on.
    while from < chunk.len() {
        let len = held.len;
        let g = lines::gather(chunk, from, &mut held.bytes, len);
        held.len = g.len;
        if g.ended {
            run_line(rt, &held.bytes[..g.len], machine, out)?;
            held.len = 0;
        }
        from = g.at;
    }
    Ok(())
}

// Reads once, and runs the lines that end in what it got. It answers how many bytes that were.
fn read_some(
    input: &mut impl Read,
    rt: &impl Print,
    held: &mut Held,
    machine: &mut Machine,
    out: &mut Output,
) -> io::Result<usize>
    requires { Ready out.old }
    ensures { StillReady out.old out.new }
{
    let mut buffer = [0u8; 4096];
    let n = input.read(&mut buffer)?;
    take_all(rt, &buffer[..n], held, machine, out)?;
    Ok(n)
}

// What the program begins with: a record of zeros.
pub(crate) fn nothing_lent() -> Lent
    ensures { result ≡ nothing_lent }
{
    let zeros = Heap {
        order: 0,
        heads: [0; 33],
        count: 0,
        user: 0,
        allocated: 0,
        total: 0,
    };
    Lent {
        heap: zeros,
        words: 0,
        records: 0,
    }
}

// Reads to the input's end. A proved loop has to end, and nothing says that an input does: it goes up to a number of turns that no run uses up.
pub(crate) fn read_all(
    input: &mut impl Read,
    rt: &impl Print,
    held: &mut Held,
    machine: &mut Machine,
    out: &mut Output,
) -> io::Result<()>
    requires { Ready out.old }
    ensures { StillReady out.old out.new }
{
    for _ in 0..u64::MAX {
        if read_some(input, rt, held, machine, out)? == 0 {
            break;
        }
    }
    Ok(())
}

// Runs the line that is held at the input's end: without a line feed it counts, and where nothing is held there is none.
fn run_last(rt: &impl Print, held: &Held, machine: &mut Machine, out: &mut Output) -> io::Result<()>
    requires { Ready out.old }
    ensures ready { StillReady out.old out.new }
    ensures ended { Ended held.now.bytes held.now.len (machine_of machine.old) (machine_of machine.new) }
{
    if held.len == 0 {
        return Ok(());
    }
    run_line(rt, &held.bytes[..held.len], machine, out)
}

// Prints all that is lent, after what waits and what a last line prints.
pub(crate) fn finish(
    rt: &impl Print,
    held: &Held,
    machine: &mut Machine,
    out: &mut Output,
) -> io::Result<()>
    requires { Ready out.old }
    ensures { Ended held.now.bytes held.now.len (machine_of machine.old) (machine_of machine.new) }
{
    run_last(rt, held, machine, out)?;
    put_all(rt, machine.lent, &machine.arena, &machine.ledger, out)?;
    let end = out.at;
    rt.write_all(&out.bytes[..end])
}
