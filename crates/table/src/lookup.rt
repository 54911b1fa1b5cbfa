// Where a frame is in a table.
ghost use Rattle.std.specs.Prelude.{◌≡◌, true};
ghost use Rattle.rules.specs.Rules.{place_of};
ghost use Rattle.table.specs.Layout.{blocks_of};
ghost use Rattle.table.specs.Sound.{soundb};

use super::layout::{count_of, end_of, start_of};
use rules::Place;

// The record of a sound table that has the frame, or the place where its record would stand: by halves, since starts ascend.
pub fn place(t: &[u64], frame: u64) -> Place
    requires { soundb t.now ≡ true }
    ensures { result ≡ place_of frame (blocks_of t.now) }
{
    let count = count_of(t[0]);
    // the records that start at or before the frame come first: the last of them is the only one that may have it
    let n = t[1..count + 1].partition_point(|w| start_of(*w) <= frame);
    if n > 0 && frame < end_of(t[n]) {
        Place::Inside(n - 1)
    } else {
        Place::Gap(n)
    }
}
