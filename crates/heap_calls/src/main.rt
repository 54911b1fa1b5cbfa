// Runs each line of standard input as a call on a heap over an arena of 4,096 words, prints its reply, and at the end all that is lent.

#![tactic(auto)]

mod reading;

ghost use Rattle.std.specs.Prelude.{◌≤◌};

use heap_runs::Machine;
use lines::Held;
use std::io;
use texts::Output;

fn main(rt: HostRuntime) -> io::Result<()> {
    let mut machine = Machine {
        lent: reading::nothing_lent(),
        arena: [0; 4096],
        ledger: [0; 512],
    };
    let mut held = Held {
        bytes: [0; 81],
        len: 0,
    };
    let mut buffer = [0u8; 4096];
    let mut out = Output {
        bytes: &mut buffer,
        at: 0,
    };
    let mut input = rt.stdin();
    reading::read_all(&mut input, &rt, &mut held, &mut machine, &mut out)?;
    reading::finish(&rt, &held, &mut machine, &mut out)
}
