// What a line prints.
ghost use Rattle.std.specs.Prelude.{false, ◌≡◌, IsOk};
ghost use Rattle.answers.specs.Paper.{paper};
ghost use Rattle.texts.specs.Output.{Puts, Ready, StillReady};
ghost use Rattle.heap_runs.specs.Text.{reply_text, figures_text, line_of, by_node};

use answers::Answer;
use heap_reader::following;
use heap_runs::Printed;
use std::io;
use texts::Output;

// The line of a reply: its number and its value.
fn put_reply(answer: Answer, out: &mut Output)
    ensures { Puts (reply_text (paper answer).number (paper answer).value) out.old out.new }
{
    out.put_number(answers::number(answer));
    out.put_with(b" ", answers::value(answer));
    out.put(b"\n");
}

// The line of the three figures.
fn put_figures(user: Answer, allocated: Answer, total: Answer, out: &mut Output)
    ensures { Puts (figures_text (paper user).number (paper user).value (paper allocated).value (paper total).value) out.old out.new }
{
    out.put_number(answers::number(user));
    out.put_with(b" ", answers::value(user));
    out.put_with(b" ", answers::value(allocated));
    out.put_with(b" ", answers::value(total));
    out.put(b"\n");
}

// The nodes of a list, at most so many, with room made for each.
pub fn put_nodes(
    rt: &impl Print,
    head: u64,
    most: usize,
    arena: &[u64],
    out: &mut Output,
) -> io::Result<()>
    requires { Ready out.old }
    ensures { StillReady out.old out.new }
{
    let mut step = following(arena, head, 0);
    let mut left = most;
    // Kept: the wrong program ring_walked_for_ever, a walk that never ends, is refused at its measure, which a `for` has not.
    while left > 0 && step.node != 0 {
        out.room(rt)?;
        out.put_with(b" ", step.node);
        step = following(arena, step.at, step.number);
        left -= 1;
    }
    out.room(rt)?;
    out.put(b"\n");
    Ok(())
}

fn put_list(
    rt: &impl Print,
    head: u64,
    count: usize,
    arena: &[u64],
    out: &mut Output,
) -> io::Result<()>
    requires { Ready out.old }
    ensures { StillReady out.old out.new }
{
    out.put_with(b"0 ", count as u64);
    put_nodes(rt, head, arena.len(), arena, out)
}

// Puts the line that a command prints.
pub fn put_printed(
    rt: &impl Print,
    line: Printed,
    arena: &[u64],
    out: &mut Output,
) -> io::Result<()>
    requires { Ready out.old }
    ensures ready { StillReady out.old out.new }
    ensures put { by_node line ≡ false → IsOk result × Puts (line_of arena.now line) out.old out.new }
{
    match line {
        Printed::Reply(answer) => put_reply(answer, out),
        Printed::Figures(user, allocated, total) => put_figures(user, allocated, total, out),
        Printed::Nodes(head, count) => return put_list(rt, head, count, arena, out),
        Printed::Set => out.put(b"set\n"),
        Printed::BadLine => out.put(b"bad line\n"),
    }
    Ok(())
}
