// The frame table for C: each call takes a pointer, a count of words, and numbers, and answers two numbers. include/lavikety.h is
// what C sees of it; nothing larger than 16 bytes crosses by value.

#![tactic(auto)]

ghost use Rattle.std.specs.Prelude.{◌≡◌};
ghost use Rattle.frame.specs.Outcome.{Add, Alloc, AllocAligned, AllocAt, Dealloc, DeallocAligned, Summary, outcome, making};
ghost use Rattle.frame_c.specs.Crossed.{Crossed, CrossedFigures};

use answers_c::{CAnswer, numbers};

#[unsafe(no_mangle)]
pub extern "C" fn lavikety_frame_new(t: &mut [u64], order: u64) -> CAnswer
    ensures { Crossed (making order t.old) result t.new }
{
    numbers(frame::new(t, order))
}

#[unsafe(no_mangle)]
pub extern "C" fn lavikety_frame_add(t: &mut [u64], start: u64, end: u64) -> CAnswer
    ensures { Crossed (outcome (Add start end) t.old) result t.new }
{
    numbers(frame::add_frame(t, start, end))
}

#[unsafe(no_mangle)]
pub extern "C" fn lavikety_frame_alloc(t: &mut [u64], count: u64) -> CAnswer
    ensures { Crossed (outcome (Alloc count) t.old) result t.new }
{
    numbers(frame::alloc(t, count))
}

#[unsafe(no_mangle)]
pub extern "C" fn lavikety_frame_alloc_aligned(t: &mut [u64], size: u64, align: u64) -> CAnswer
    ensures { Crossed (outcome (AllocAligned size align) t.old) result t.new }
{
    numbers(frame::alloc_aligned(t, size, align))
}

#[unsafe(no_mangle)]
pub extern "C" fn lavikety_frame_alloc_at(t: &mut [u64], start: u64, count: u64) -> CAnswer
    ensures { Crossed (outcome (AllocAt start count) t.old) result t.new }
{
    numbers(frame::alloc_at(t, start, count))
}

#[unsafe(no_mangle)]
pub extern "C" fn lavikety_frame_dealloc(t: &mut [u64], start: u64, count: u64) -> CAnswer
    ensures { Crossed (outcome (Dealloc start count) t.old) result t.new }
{
    numbers(frame::dealloc(t, start, count))
}

#[unsafe(no_mangle)]
pub extern "C" fn lavikety_frame_dealloc_aligned(
    t: &mut [u64],
    start: u64,
    size: u64,
    align: u64,
) -> CAnswer
    ensures { Crossed (outcome (DeallocAligned start size align) t.old) result t.new }
{
    numbers(frame::dealloc_aligned(t, start, size, align))
}

#[unsafe(no_mangle)]
pub extern "C" fn lavikety_frame_summary(t: &[u64], figures: &mut [u64; 3]) -> u64
    ensures { CrossedFigures (outcome Summary t.now) result figures.new t.now }
{
    match frame::summary(t) {
        Ok(f) => {
            *figures = [f.granted, f.managed, f.largest];
            0
        }
        Err(refusal) => {
            *figures = [0, 0, 0];
            u64::from(refusal)
        }
    }
}
