// The lines that `calls` prints.
ghost use Rattle.texts.specs.Output.{Puts};
ghost use Rattle.frame_lines.specs.Text.{reply_text, heading_text, record_text};

use texts::Output;

// Kept: its clause, `reply_text number value valued`, is of every number, also of one that no refusal has, so it takes no Answer.
// The line of a reply: `no` and the number of a refusal, the value of an accepted call that answers one, or `ok`.
pub fn put_reply(number: u64, value: u64, valued: bool, out: &mut Output)
    ensures { Puts (reply_text number value valued) out.old out.new }
{
    if number != 0 {
        out.put_with(b"no ", number);
        return out.put(b"\n");
    }
    if valued {
        out.put_number(value);
        return out.put(b"\n");
    }
    out.put(b"ok\n");
}

// The heading of a table.
pub fn put_heading(order: u64, records: u64, out: &mut Output)
    ensures { Puts (heading_text order records) out.old out.new }
{
    out.put_with(b"order ", order);
    out.put_with(b" records ", records);
    out.put(b"\n");
}

// The line of a record.
pub fn put_record(start: u64, class: u64, granted: bool, out: &mut Output)
    ensures { Puts (record_text start class granted) out.old out.new }
{
    out.put_number(start);
    out.put_with(b" ", class);
    if granted {
        return out.put(b" granted\n");
    }
    out.put(b" free\n");
}
