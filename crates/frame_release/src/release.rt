// A granted block becomes free and is joined with its buddies.
ghost use Rattle.std.specs.Prelude.{get_or};
ghost use Rattle.table.specs.Layout.{order_of, blocks_of};
ghost use Rattle.frame_core.specs.Deciding.{Asked, wanted};
ghost use Rattle.frame_core.specs.Carried.{Carries};
ghost use Rattle.frame_release.specs.Release.{Releasable, Joins, released_at};
ghost use Rattle.frame_release.specs.Releasing.{releasing};

use answers::{Answer, Refusal};
use rules::Place;

// The records from place `from` up to, not including, `to` give way to one free block.
#[derive(Clone, Copy)]
struct Span {
    from: usize,
    to: usize,
    class: u64,
    start: u64,
}

// Joins the block at place i with its buddy while that is free: a free buddy stands next to it, so the span widens to one side.
fn join(t: &[u64], i: usize) -> Span
    requires { Releasable t.now i }
    ensures { Joins t.now i result.from result.to result.class result.start }
{
    let head = t[0];
    let count = table::count_of(head);
    let top = table::order_of(head) - 1;
    let w = t[i + 1];
    let mut span = Span {
        from: i,
        to: i + 1,
        class: table::class_of(w),
        start: table::start_of(w),
    };
    // Kept: the class is a part of the span that widens, and the loop ends early: a range would count beside it.
    while span.class < top {
        let buddy = blocks::buddy(span.start, span.class);
        let wanted = table::record_word(false, span.class, buddy);
        if span.start < buddy {
            if span.to == count || t[span.to + 1] != wanted {
                return span;
            }
            span.to += 1;
        } else {
            if span.from == 0 || t[span.from] != wanted {
                return span;
            }
            span.from -= 1;
            span.start = buddy;
        }
        span.class += 1;
    }
    span
}

// The granted block at place i of a sound table becomes free, joined as far as its buddies are free: one splice.
fn release_at(t: &mut [u64], i: usize) -> Answer
    requires { Releasable t.old i }
    ensures { Carries (released_at t.old i) t.old result t.new }
{
    let head = t[0];
    let count = table::count_of(head);
    let span = join(t, i);
    let from = span.from;
    let to = span.to;
    words::move_tail(t, to + 1, from + 2, count + 1);
    t[from + 1] = table::record_word(false, span.class, span.start);
    t[0] = table::head_word(table::order_of(head), (count - (to - from) + 1) as u64);
    Ok(0)
}

// Releases the block at start of the class that a count was rounded to, if such a block is granted, in a sound table.
pub fn release_block(t: &mut [u64], start: u64, size: Option<u64>) -> Answer
    requires { Asked t.old size }
    ensures { Carries (releasing start (wanted size) (order_of (get_or t.old 0 0)) (blocks_of t.old)) t.old result t.new }
{
    let class = size.ok_or(Refusal::NotGranted)?;
    let Place::Inside(i) = table::place(t, start) else {
        return Err(Refusal::NotGranted);
    };
    if t[i + 1] != table::record_word(true, class, start) {
        return Err(Refusal::NotGranted);
    }
    release_at(t, i)
}
