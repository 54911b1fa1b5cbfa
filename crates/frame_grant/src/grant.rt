// Grants from a sound table, of a size that was rounded to its class.
ghost use Rattle.std.specs.Prelude.{◌-◌, length, get_or};
ghost use Rattle.table.specs.Layout.{order_of, blocks_of};
ghost use Rattle.frame_core.specs.Deciding.{Asked, wanted};
ghost use Rattle.frame_core.specs.Carried.{Carries};
ghost use Rattle.frame_grant.specs.Granting.{granting, granting_at};

use answers::{Answer, Refusal};
use rules::Place;

// A record's word from here on has the granted mark, its topmost bit.
const GRANTED: u64 = 0x8000_0000_0000_0000;

// The smallest class that has a free block that suffices, in it the lowest start.
pub fn grant_block(t: &mut [u64], size: Option<u64>) -> Answer
    requires { Asked t.old size }
    ensures { Carries (granting (wanted size) (order_of (get_or t.old 0 0)) (length t.old - 1) (blocks_of t.old)) t.old result t.new }
{
    let class = size.ok_or(Refusal::NoBlock)?;
    let order = table::order_of(t[0]);
    if order <= class {
        return Err(Refusal::NoBlock);
    }
    let i = frame_core::pick(t, order, class).ok_or(Refusal::NoBlock)?;
    let lowest = table::start_of(t[i + 1]);
    frame_halve::halve(t, i, class, lowest)
}

// The run of the class at start, from the one free block that contains it.
pub fn grant_run(t: &mut [u64], start: u64, size: Option<u64>) -> Answer
    requires { Asked t.old size }
    ensures { Carries (granting_at start (wanted size) (order_of (get_or t.old 0 0)) (length t.old - 1) (blocks_of t.old)) t.old result t.new }
{
    let class = size.ok_or(Refusal::NoBlock)?;
    if table::order_of(t[0]) <= class {
        return Err(Refusal::NoBlock);
    }
    let frames = blocks::size_of(class);
    // by a mask, since a division by a variable is slow
    if start & (frames - 1) != 0 {
        return Err(Refusal::Misaligned);
    }
    let Place::Inside(i) = table::place(t, start) else {
        return Err(Refusal::NoBlock);
    };
    let w = t[i + 1];
    if GRANTED <= w {
        return Err(Refusal::NoBlock);
    }
    if table::end_of(w) < start + frames {
        return Err(Refusal::NoBlock);
    }
    frame_halve::halve(t, i, class, start)
}
