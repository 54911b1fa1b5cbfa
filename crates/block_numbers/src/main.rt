// Prints what `blocks` answers for each decimal number on standard input, a line for each.

#![tactic(auto)]

use std::io;
use std::io::Read;

// A number that is not below 2^64.
#[derive(Clone, Copy)]
struct TooLarge;

// The number being read, once it has a digit.
type Reading = Option<Result<u64, TooLarge>>;

fn with_digit(reading: Reading, digit: u64) -> Result<u64, TooLarge> {
    let value = reading.unwrap_or(Ok(0))?;
    let tens = value.checked_mul(10).ok_or(TooLarge)?;
    tens.checked_add(digit).ok_or(TooLarge)
}

fn put(rt: &impl Print, text: &[u8]) -> io::Result<()> {
    rt.write_all(text)
}

fn put_number(rt: &impl Print, n: u64) -> io::Result<()> {
    put(rt, b" ")?;
    rt.print(n)
}

fn put_class(rt: &impl Print, r: Option<u64>) -> io::Result<()> {
    match r {
        Some(k) => put_number(rt, k),
        None => put(rt, b" above"),
    }
}

// The line of one number: its answers from each function of `blocks`, in the order of the heading.
fn put_line(rt: &impl Print, n: u64) -> io::Result<()> {
    rt.print(n)?;
    put(rt, b":")?;
    put_number(rt, blocks::size_of(n))?;
    put_class(rt, blocks::round(n))?;
    put_class(rt, blocks::round_aligned(n, 4096))?;
    put_number(rt, blocks::prev_power_of_two(n))?;
    put_number(rt, blocks::lowest_bit(n))?;
    if blocks::is_power_of_two(n) {
        put(rt, b" yes")?;
    } else {
        put(rt, b" no")?;
    }
    put_number(rt, blocks::buddy(n, 12))?;
    put_number(rt, blocks::piece(n, 1000000, 20))?;
    put(rt, b"\n")
}

fn end(rt: &impl Print, reading: Reading) -> io::Result<()> {
    match reading {
        Some(Ok(n)) => put_line(rt, n),
        Some(Err(TooLarge)) => put(rt, b"not below 2^64\n"),
        None => Ok(()),
    }
}

// Takes one byte: a digit goes on with the number, and any other byte ends it.
fn take(rt: &impl Print, reading: Reading, byte: u8) -> io::Result<Reading> {
    let Some(digit) = char::from(byte).to_digit(10) else {
        end(rt, reading)?;
        return Ok(None);
    };
    Ok(Some(with_digit(reading, u64::from(digit))))
}

fn take_all(rt: &impl Print, begun: Reading, bytes: &[u8]) -> io::Result<Reading> {
    let mut reading = begun;
    for byte in bytes {
        reading = take(rt, reading, *byte)?;
    }
    Ok(reading)
}

// A proved loop has to end, and nothing says that an input does: the loop goes up to a number of turns that no run uses up.
fn main(rt: HostRuntime) -> io::Result<()> {
    put(
        &rt,
        b"number: size class aligned-to-4096 previous-power lowest-bit power-of-two buddy-in-class-12 piece-of-1000000-up-to-class-20\n",
    )?;
    let mut input = rt.stdin();
    let mut buffer = [0u8; 4096];
    let mut reading = None;
    for _ in 0..u64::MAX {
        let n = input.read(&mut buffer)?;
        if n == 0 {
            break;
        }
        reading = take_all(&rt, reading, &buffer[..n])?;
    }
    end(&rt, reading)
}
