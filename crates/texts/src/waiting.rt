// The output that waits in a buffer: what has no place in it is left out, and nothing else of it changes.
ghost use Rattle.std.specs.Prelude.{◌++◌, ◌≡◌, ◌+◌, ◌<◌, ◌≤◌, length, IfOk, OnErr, IsOkAnd};
ghost use Rattle.texts.specs.Text.{decimal, hex, hex_digit};
ghost use Rattle.texts.specs.Output.{Puts, SameBytes, Ready, StillReady};

use crate::Output;
use crate::text::put;
use std::io;

// No piece of an output is longer, so that none is cut.
const LONGEST: usize = 160;

// Kept: the wrong program letters_upper_case changes its line, and the library gives a digit as a char.
fn digit(value: u64) -> u8
    requires { value < 16 }
    ensures { result ≡ hex_digit value }
{
    if value < 10 {
        b'0' + value as u8
    } else {
        b'a' + (value as u8 - 10)
    }
}

// Writes the output that waits where a piece might have no room behind it, and answers the place for the next piece.
// An error is the stream's, where something had to be written; nothing that was lent changes.
pub fn room(rt: &impl Print, out: &[u8], at: usize) -> io::Result<usize>
    requires at_in_bounds { at ≤ length out.now }
    requires in_bounds { 160 ≤ length out.now }
    ensures made { IfOk result (λ place. place + 160 ≤ length out.now) }
    ensures no_error { at + 160 ≤ length out.now → IsOkAnd result (λ place. place ≡ at) }
{
    if out.len() - at < LONGEST {
        rt.write_all(&out[..at])?;
        return Ok(0);
    }
    Ok(at)
}

impl Output<'_> {
    // Puts text at the place, and goes on to the place after it.
    pub fn put(&mut self, text: &[u8])
        ensures { Puts text.now self.old self.new }
    {
        self.at = put(text, self.bytes, self.at);
    }

    // Puts a number in decimal.
    pub fn put_number(&mut self, n: u64)
        ensures { Puts (decimal n) self.old self.new }
    {
        if n == 0 {
            self.put(b"0");
            return;
        }
        let mut digits = [0u8; 20];
        let mut rest = n;
        for first in (0..20).rev() {
            digits[first] = b'0' + (rest % 10) as u8;
            rest /= 10;
            if rest == 0 {
                self.put(&digits[first..]);
                return;
            }
        }
        unreachable!()
    }

    // Puts a word and the number after it.
    pub fn put_with(&mut self, word: &[u8], n: u64)
        ensures { Puts (word.now ++ decimal n) self.old self.new }
    {
        self.put(word);
        self.put_number(n);
    }

    // Puts a word as 16 hexadecimal digits.
    pub fn put_hex(&mut self, word: u64)
        ensures { Puts (hex word) self.old self.new }
    {
        let mut digits = [0u8; 16];
        let mut rest = word;
        for i in (0..16).rev() {
            digits[i] = digit(rest % 16);
            rest /= 16;
        }
        self.put(&digits);
    }

    // Kept: the buffer is lent here, where it is only read: lent in `room`, its bytes would not be known afterwards.
    // The place where there is room.
    fn free(&self, rt: &impl Print) -> io::Result<usize>
        requires { Ready self.now }
        ensures made { IfOk result (λ place. place + 160 ≤ length self.now.bytes.now) }
        ensures no_error { self.now.at + 160 ≤ length self.now.bytes.now → IsOkAnd result (λ place. place ≡ self.now.at) }
    {
        room(rt, self.bytes, self.at)
    }

    // Writes the output that waits where a piece might have no room behind it.
    // An error is the stream's, where something had to be written; nothing of the output changes then.
    pub fn room(&mut self, rt: &impl Print) -> io::Result<()>
        requires { Ready self.old }
        ensures bytes_left { SameBytes self.old self.new }
        ensures made { IfOk result (λ _. self.new.at + 160 ≤ length self.new.bytes.now) }
        ensures no_error { self.old.at + 160 ≤ length self.old.bytes.now → IsOkAnd result (λ _. self.new.at ≡ self.old.at) }
        ensures place_left { OnErr result (self.new.at ≡ self.old.at) }
        ensures ready { StillReady self.old self.new }
    {
        self.at = self.free(rt)?;
        Ok(())
    }
}
