// A grant in place: the record of a free block becomes those of its halves and of the run.
ghost use Rattle.std.specs.Prelude.{◌≡◌, ◌++◌, map, ◌+◌, ◌-◌, ◌^◌, ◌≤◌, ◌<◌, length, take, drop};
ghost use Rattle.rules.specs.Rules.{towards};
ghost use Rattle.table.specs.Layout.{word_of};
ghost use Rattle.frame_core.specs.Carried.{Carries};
ghost use Rattle.frame_halve.specs.Halve.{Halvable, halving};

use answers::{Answer, Refusal};

// The block at place i of a sound table is halved towards the run of `class` at `run`, if there is room.
pub fn halve(t: &mut [u64], i: usize, class: u64, run: u64) -> Answer
    requires { Halvable t.old i class }
    ensures { Carries (halving class run i t.old) t.old result t.new }
{
    let head = t[0];
    let count = table::count_of(head);
    let w = t[i + 1];
    let from = table::class_of(w);
    let more = (from - class) as usize;
    // before any write, since a refused call changes no word
    if t.len() - 1 < count + more {
        return Err(Refusal::NoRoom);
    }
    words::move_tail(t, i + 2, i + 2 + more, count + 1);
    write_halves(t, i + 1, class, run, from, table::start_of(w));
    t[0] = table::head_word(table::order_of(head), (count + more) as u64);
    Ok(run)
}

// Writes what a block of class `from` at `start` is halved into towards the run, to the window of from - class + 1 words at `at`: from
// both ends of it, since the halves above the run stand after it, the last one found first.
fn write_halves(t: &mut [u64], at: usize, class: u64, run: u64, from: u64, start: u64)
    requires { (class ≤ from) × (from ≤ 32) × (start + 2 ^ from ≤ 2 ^ 32) × (at + (from - class) < length t.old) }
    ensures { t.new ≡ take at t.old ++ (map word_of (towards from class run start) ++ drop (at + 1 + (from - class)) t.old) }
{
    let mut lo = at;
    let mut hi = at + 1 + (from - class) as usize;
    let mut s = start;
    for k in (class..from).rev() {
        let mid = s + blocks::size_of(k);
        if run < mid {
            hi -= 1;
            t[hi] = table::record_word(false, k, mid);
        } else {
            t[lo] = table::record_word(false, k, s);
            lo += 1;
            s = mid;
        }
    }
    t[lo] = table::record_word(true, class, s);
}
