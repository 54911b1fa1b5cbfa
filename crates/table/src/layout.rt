// The fields of a word of a frame table, as specs/Layout.antt has them. Each reader has an answer for every word.
ghost use Rattle.std.specs.Prelude.{◌≡◌, ◌^◌};
ghost use Rattle.table.specs.Layout.{order_of, count_of, mark_of, class_of, start_of, end_of};

pub fn order_of(w: u64) -> u64
    ensures { result ≡ order_of w }
{
    w >> 58
}

pub fn count_of(w: u64) -> usize
    ensures { result ≡ count_of w }
{
    ((w >> 42) % 0x1_0000) as usize
}

pub fn mark_of(w: u64) -> u64
    ensures { result ≡ mark_of w }
{
    w >> 63
}

pub fn class_of(w: u64) -> u64
    ensures { result ≡ class_of w }
{
    (w >> 57) % 64
}

pub fn start_of(w: u64) -> u64
    ensures { result ≡ start_of w }
{
    w % 0x1_0000_0000
}

// The frames of a record's block. By a shift and not by the table of sizes, since any word may ask.
pub fn size_of(w: u64) -> u64
    ensures { result ≡ 2 ^ class_of w }
{
    1u64 << class_of(w)
}

pub fn end_of(w: u64) -> u64
    ensures { result ≡ end_of w }
{
    start_of(w) + size_of(w)
}
