// The public calls on a frame table, named as in the Rust: each tests the table first and refuses with 3, then does the work by the
// parts in `frame_add`, `frame_grant`, `frame_release` and `frame_core`. None asks anything of its caller; specs/Outcome.antt says what each
// answers and leaves.

#![tactic(auto)]

ghost use Rattle.std.specs.Prelude.{◌≡◌, true, false, OnOk, IfErr};
ghost use Rattle.answers.specs.declared.Refusal.TheVariants.{BadState};
ghost use Rattle.table.specs.Sound.{soundb};
ghost use Rattle.frame.specs.Outcome.{Add, Alloc, AllocAligned, AllocAt, Dealloc, DeallocAligned};
ghost use Rattle.frame.specs.Told.{Made, Told};

mod report;

use answers::{Answer, Refusal};
pub use report::{Report, summary};

// Refusal 3 where the table is not sound: each call but making asks this first.
fn checked(t: &[u64]) -> Result<(), Refusal>
    ensures ok { OnOk result (soundb t.now ≡ true) }
    ensures err { IfErr result (λ refusal. (refusal ≡ BadState) × (soundb t.now ≡ false)) }
{
    if table_scan::sound(t) {
        Ok(())
    } else {
        Err(Refusal::BadState)
    }
}

// Makes an empty table of the ORDER over the lent words, whatever they hold.
pub fn new(t: &mut [u64], order: u64) -> Answer
    ensures { Made order t.old result t.new }
{
    if order < 1 {
        return Err(Refusal::BadOrder);
    }
    if 33 < order {
        return Err(Refusal::BadOrder);
    }
    if t.len() < 1 {
        return Err(Refusal::BadSize);
    }
    if 65536 < t.len() {
        return Err(Refusal::BadSize);
    }
    words::clear(t);
    t[0] = table::head_word(order, 0);
    Ok(0)
}

// Adds the frames [start, end).
pub fn add_frame(t: &mut [u64], start: u64, end: u64) -> Answer
    ensures { Told (Add start end) t.old result t.new }
{
    checked(t)?;
    frame_add::add_range(t, start, end)
}

// The same, under the name that the Rust has for a range.
pub fn insert(t: &mut [u64], start: u64, end: u64) -> Answer
    ensures { Told (Add start end) t.old result t.new }
{
    add_frame(t, start, end)
}

// Grants count frames, rounded up to a block.
pub fn alloc(t: &mut [u64], count: u64) -> Answer
    ensures { Told (Alloc count) t.old result t.new }
{
    checked(t)?;
    frame_grant::grant_block(t, blocks::round(count))
}

// Grants the run of count frames, rounded up, that starts at start.
pub fn alloc_at(t: &mut [u64], start: u64, count: u64) -> Answer
    ensures { Told (AllocAt start count) t.old result t.new }
{
    checked(t)?;
    frame_grant::grant_run(t, start, blocks::round(count))
}

// Releases the block of count frames, rounded up, that starts at start.
pub fn dealloc(t: &mut [u64], start: u64, count: u64) -> Answer
    ensures { Told (Dealloc start count) t.old result t.new }
{
    checked(t)?;
    frame_release::release_block(t, start, blocks::round(count))
}

// Grants the larger of size, rounded up, and align, which must be a power of two.
pub fn alloc_aligned(t: &mut [u64], size: u64, align: u64) -> Answer
    ensures { Told (AllocAligned size align) t.old result t.new }
{
    checked(t)?;
    if !blocks::is_power_of_two(align) {
        return Err(Refusal::BadAlign);
    }
    frame_grant::grant_block(t, blocks::round_aligned(size, align))
}

// Releases the block at start that alloc_aligned grants for this size and align.
pub fn dealloc_aligned(t: &mut [u64], start: u64, size: u64, align: u64) -> Answer
    ensures { Told (DeallocAligned start size align) t.old result t.new }
{
    checked(t)?;
    if !blocks::is_power_of_two(align) {
        return Err(Refusal::BadAlign);
    }
    frame_release::release_block(t, start, blocks::round_aligned(size, align))
}
