// Adding a range: its pieces counted, then written at their place.
ghost use Rattle.std.specs.Prelude.{◌≡◌, true, map, ◌+◌, ◌-◌, ◌≤◌, ◌<◌, min, length, get_or};
ghost use Rattle.rules.proofs.Adding.{Range, pieces_of};
ghost use Rattle.table.specs.Layout.{order_of, count_of, word_of, blocks_of};
ghost use Rattle.table.specs.Sound.{soundb};
ghost use Rattle.words.proofs.Writing.{filled};
ghost use Rattle.frame_core.specs.Carried.{Carries};
ghost use Rattle.frame_add.specs.Add.{Addable, Placed, starts_before};
ghost use Rattle.frame_add.specs.Adding.{adding};

use answers::{Answer, Refusal};
use rules::Place;

// The pieces of [start, end) are put at place i of a sound table, where they belong and touch nothing, if there is room.
fn add_at(t: &mut [u64], i: usize, start: u64, end: u64) -> Answer
    requires { Addable t.old i start end }
    ensures { Placed t.old start end result t.new }
{
    let head = t[0];
    let order = table::order_of(head);
    let count = table::count_of(head);
    let top = order - 1;
    let n = end - start;
    let room = t.len() - 1 - count;
    let more = pieces(start, n, top, room);
    // before any word is written, since a refused call changes none
    if room < more {
        return Err(Refusal::NoRoom);
    }
    let at = i + 1;
    words::move_tail(t, at, at + more, count + 1);
    write_pieces(t, at, start, n, top);
    t[0] = table::head_word(order, (count + more) as u64);
    Ok(0)
}

// How many pieces n frames from start on are cut into, counted no further than one past `most`: a range may have 2^32 pieces.
// Kept: the walk stands here and in `write_pieces`. An iterator over the pieces would be a type with an invariant, and promise its steps and
// its end: more to read than the two loops.
fn pieces(start: u64, n: u64, top: u64, most: usize) -> usize
    requires { Range top start n × (most ≤ 65535) }
    ensures { result ≡ min (length (pieces_of top start n)) (most + 1) }
{
    let mut from = start;
    let mut left = n;
    let mut k: usize = 0;
    while left > 0 {
        if most < k {
            return k;
        }
        let size = blocks::piece(from, left, top);
        from += size;
        left -= size;
        k += 1;
    }
    k
}

// Writes the pieces of n frames from start on as free records, from word `at` on.
fn write_pieces(t: &mut [u64], at: usize, start: u64, n: u64, top: u64)
    requires { Range top start n × (at + length (pieces_of top start n) ≤ length t.old) }
    ensures { t.new ≡ filled t.old at (map word_of (pieces_of top start n)) (length (pieces_of top start n)) }
{
    let mut s = start;
    let mut left = n;
    let mut p = at;
    while left > 0 {
        let size = blocks::piece(s, left, top);
        t[p] = table::record_word(false, blocks::class_of(size), s);
        s += size;
        left -= size;
        p += 1;
    }
}

// Whether there is a record at place i, and it starts before `end`.
fn starts_before(t: &[u64], i: usize, end: u64) -> bool
    requires { count_of (get_or t.now 0 0) < length t.now }
    ensures { result ≡ starts_before t.now i end }
{
    if table::count_of(t[0]) <= i {
        return false;
    }
    table::start_of(t[i + 1]) < end
}

// The frames [start, end) are added to a sound table.
pub fn add_range(t: &mut [u64], start: u64, end: u64) -> Answer
    requires { soundb t.old ≡ true }
    ensures { Carries (adding start end (order_of (get_or t.old 0 0)) (length t.old - 1) (blocks_of t.old)) t.old result t.new }
{
    if end < start {
        return Err(Refusal::BadRange);
    }
    if 0x1_0000_0000 < end {
        return Err(Refusal::BadRange);
    }
    // an empty range is accepted anywhere, inside a block too
    if start == end {
        return Ok(0);
    }
    let Place::Gap(i) = table::place(t, start) else {
        return Err(Refusal::Overlap);
    };
    if starts_before(t, i, end) {
        return Err(Refusal::Overlap);
    }
    add_at(t, i, start, end)
}
