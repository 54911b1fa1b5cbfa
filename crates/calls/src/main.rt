// Runs each line of standard input as a call on a frame table of 4,096 words, prints its reply, and at the end the table.

#![tactic(auto)]

ghost use Rattle.std.specs.Prelude.{◌≡◌, ◌≤◌, ◌<◌, length, IfOk, IsOk, OnErr, ◌+◌};
ghost use Rattle.frame_lines.specs.Command.{command_of};
ghost use Rattle.texts.specs.Put.{Shown};
ghost use Rattle.texts.specs.Output.{Puts, SameBytes, Ready, StillReady};
ghost use Rattle.calls.specs.Run.{printed, words_after, line_of, block_line, Took, Stopped, Ended};

use answers::Answer;
use frame_lines::Command;
use grammar::BadLine;
use lines::Held;
use std::io;
use std::io::Read;
use texts::Output;

// Kept: a bad line is one of the things that are printed and no error: the program goes on.
// What a line prints: the reply of a call, with or without its value, or that it is no call.
#[derive(Clone, Copy)]
enum Printed {
    Reply(Answer, bool),
    BadLine,
}

// Runs the command that a line is on the table.
fn run(command: Result<Command, BadLine>, t: &mut [u64]) -> Printed
    ensures result_value { line_of result ≡ printed command t.old }
    ensures t_after { t.new ≡ words_after command t.old }
{
    match command {
        Ok(Command::Order(order)) => Printed::Reply(frame::new(t, order), false),
        Ok(Command::Add(start, end)) => Printed::Reply(frame::add_frame(t, start, end), false),
        Ok(Command::Alloc(count)) => Printed::Reply(frame::alloc(t, count), true),
        Ok(Command::At(start, count)) => Printed::Reply(frame::alloc_at(t, start, count), true),
        Ok(Command::Free(start, count)) => Printed::Reply(frame::dealloc(t, start, count), false),
        Err(BadLine) => Printed::BadLine,
    }
}

// Puts the line that a call's answer, or a bad line, prints.
fn put_printed(line: Printed, out: &mut Output)
    ensures { Puts (line_of line) out.old out.new }
{
    match line {
        Printed::Reply(answer, valued) => {
            frame_lines::put_reply(answers::number(answer), answers::value(answer), valued, out)
        }
        Printed::BadLine => out.put(b"bad line\n"),
    }
}

// Runs a line, and puts what it prints.
fn run_line(rt: &impl Print, line: &[u8], t: &mut [u64], out: &mut Output) -> io::Result<()>
    requires { Ready out.old }
    ensures ready { StillReady out.old out.new }
    ensures t_after { t.new ≡ words_after (command_of line.now) t.old }
    ensures shown { IfOk result (λ _. Shown (printed (command_of line.now) t.old) out.old.bytes.now out.new.at out.new.bytes.now) }
    ensures not_shown { OnErr result (SameBytes out.old out.new) }
    ensures place_left { OnErr result (out.new.at ≡ out.old.at) }
    ensures no_error { out.old.at + 160 ≤ length out.old.bytes.now → IsOk result }
{
    let reply = run(frame_lines::command_of(line), t);
    out.room(rt)?;
    put_printed(reply, out);
    Ok(())
}

// Kept: heap_calls has the like of take_all, read_some, read_all, run_last and finish. One for both would need a trait with what a line does, what it leaves on an
// error and what is printed as its ghost members: more to read than the five.
// Runs the lines that end in a chunk; what follows them is held.
fn take_all(
    rt: &impl Print,
    chunk: &[u8],
    held: &mut Held,
    t: &mut [u64],
    out: &mut Output,
) -> io::Result<()>
    requires { Ready out.old }
    ensures ready { StillReady out.old out.new }
    ensures took { IfOk result (λ _. Took chunk.now held.old.bytes held.old.len t.old held.new.bytes held.new.len t.new) }
    ensures stopped { OnErr result (Stopped chunk.now held.old.bytes held.old.len t.old t.new) }
{
    let mut from = 0;
    // Kept: a `for` over split pieces is no plainer, since a line begins in one chunk and ends in another: `gather` says where to go on.
    while from < chunk.len() {
        let len = held.len;
        let g = lines::gather(chunk, from, &mut held.bytes, len);
        held.len = g.len;
        if g.ended {
            run_line(rt, &held.bytes[..g.len], t, out)?;
            held.len = 0;
        }
        from = g.at;
    }
    Ok(())
}

// Reads once, and runs the lines that end in what it got. It answers how many bytes that were.
fn read_some(
    input: &mut impl Read,
    rt: &impl Print,
    held: &mut Held,
    t: &mut [u64],
    out: &mut Output,
) -> io::Result<usize>
    requires { Ready out.old }
    ensures ready { StillReady out.old out.new }
    ensures words_left { OnErr result (length t.new ≡ length t.old) }
{
    let mut buffer = [0u8; 4096];
    let n = input.read(&mut buffer)?;
    take_all(rt, &buffer[..n], held, t, out)?;
    Ok(n)
}

// The line of a record.
fn put_block(w: u64, out: &mut Output)
    ensures { Puts (block_line w) out.old out.new }
{
    let start = table::start_of(w);
    let class = table::class_of(w);
    let granted = table::mark_of(w) == 1;
    frame_lines::put_record(start, class, granted, out);
}

// Prints the table: its heading, and a line for each record.
fn put_table(rt: &impl Print, t: &[u64], out: &mut Output) -> io::Result<()>
    requires t_nonzero { 0 < length t.now }
    requires ready_before { Ready out.old }
    ensures { StillReady out.old out.new }
{
    let count = table::count_of(t[0]);
    out.room(rt)?;
    frame_lines::put_heading(table::order_of(t[0]), count as u64, out);
    for w in t[1..].iter().take(count) {
        out.room(rt)?;
        put_block(*w, out);
    }
    Ok(())
}

// Reads to the input's end. A proved loop has to end, and nothing says that an input does: it goes up to a number of turns that no run uses up.
fn read_all(
    input: &mut impl Read,
    rt: &impl Print,
    held: &mut Held,
    t: &mut [u64],
    out: &mut Output,
) -> io::Result<()>
    requires { Ready out.old }
    ensures ready { StillReady out.old out.new }
    ensures words_left { OnErr result (length t.new ≡ length t.old) }
{
    for _ in 0..u64::MAX {
        if read_some(input, rt, held, t, out)? == 0 {
            break;
        }
    }
    Ok(())
}

// Runs the line that is held at the input's end: without a line feed it counts, and where nothing is held there is none.
fn run_last(rt: &impl Print, held: &Held, t: &mut [u64], out: &mut Output) -> io::Result<()>
    requires { Ready out.old }
    ensures ready { StillReady out.old out.new }
    ensures ended { Ended held.now.bytes held.now.len t.old t.new }
    ensures not_shown { OnErr result (SameBytes out.old out.new) }
    ensures place_left { OnErr result (out.new.at ≡ out.old.at) }
    ensures no_error { out.old.at + 160 ≤ length out.old.bytes.now → IsOk result }
{
    if held.len == 0 {
        return Ok(());
    }
    run_line(rt, &held.bytes[..held.len], t, out)
}

// Prints the table, after what waits and what a last line prints.
fn finish(rt: &impl Print, held: &Held, t: &mut [u64], out: &mut Output) -> io::Result<()>
    requires t_nonzero { 0 < length t.old }
    requires ready_before { Ready out.old }
    ensures { Ended held.now.bytes held.now.len t.old t.new }
{
    run_last(rt, held, t, out)?;
    put_table(rt, t, out)?;
    let end = out.at;
    rt.write_all(&out.bytes[..end])
}

fn main(rt: HostRuntime) -> io::Result<()> {
    let mut t = [0u64; 4096];
    let _ = frame::new(&mut t, 33);
    let mut held = Held {
        bytes: [0; 81],
        len: 0,
    };
    let mut buffer = [0u8; 4096];
    let mut out = Output {
        bytes: &mut buffer,
        at: 0,
    };
    let mut input = rt.stdin();
    read_all(&mut input, &rt, &mut held, &mut t, &mut out)?;
    finish(&rt, &held, &mut t, &mut out)
}
