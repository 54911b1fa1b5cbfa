// Whether a frame table is sound. Every call tests it first, so each word is read once, and the loops over words have no branch but their end.
ghost use Rattle.std.specs.Prelude.{◌≡◌, ◌&&◌, ◌+◌, ◌-◌, ◌%◌, ◌^◌, ◌≤◌, ◌<◌, length};
ghost use Rattle.table.specs.Layout.{rest_of, class_of, gap_of, start_of};
ghost use Rattle.table.specs.Sound.{headb, recordb, recordsb, apartb, soundb};
ghost use Rattle.table_scan.specs.Scan.{below33, mask_of, Lap, cleanb, end_after};

pub fn sound(t: &[u64]) -> bool
    ensures { result ≡ soundb t.now }
{
    let n = t.len();
    if n < 1 {
        return false;
    }
    let head = t[0];
    if !head_ok(n, head) {
        return false;
    }
    let end = table::count_of(head) + 1;
    records_ok(&t[1..end], table::order_of(head)) && words::zeros_from(t, end)
}

// Word 0 of a table of n words.
fn head_ok(n: usize, w: u64) -> bool
    requires { 1 ≤ n }
    ensures { result ≡ headb n w }
{
    n <= 65536
        && (1..=33).contains(&table::order_of(w))
        && table::count_of(w) < n
        && rest_of(w) == 0
}

// All the records. The first is tested by itself: it alone may have class 32, and none stands before it. The others go by parts, with a
// way out after each: a table that is wrong early on is left after 1,024 records.
fn records_ok(records: &[u64], order: u64) -> bool
    requires { (1 ≤ order) × (order ≤ 33) }
    ensures { result ≡ recordsb order records.now && apartb 0 records.now }
{
    let Some((first, others)) = records.split_first() else {
        return true;
    };
    if !record_ok(order, *first) {
        return false;
    }
    let mut floor = table::end_of(*first);
    for part in others.chunks(1024) {
        let Some(end) = rows_end(part, order, floor) else {
            return false;
        };
        floor = end;
    }
    true
}

// A record's word by itself.
fn record_ok(order: u64, w: u64) -> bool
    ensures { result ≡ recordb order w }
{
    gap_of(w) == 0
        && table::class_of(w) < order
        && over_of(w) == 0
        && table::end_of(w) <= 0x1_0000_0000
}

// Where the last block of a part ends, if the block before the part ends at floor and all is well from there.
// What is wrong is gathered, with no way out of the loop, and judged once. The starts and the masks have 32 bits, so that a vector holds
// four of them: last, the last frame of the block before, fits where its end does not.
fn rows_end(part: &[u64], order: u64, floor: u64) -> Option<u64>
    requires { (length part.now ≤ 1024) × (1 ≤ floor) × (floor ≤ 2 ^ 32) × (1 ≤ order) × (order ≤ 33) }
    ensures { result ≡ end_after (below33 order) floor part.now }
{
    let mut words: u64 = 0;
    let mut overs: u32 = 0;
    let mut masks: u32 = 0;
    let mut laps: u32 = 0;
    let mut last = (floor - 1) as u32;
    for w in part {
        let start = low_half(*w);
        let mask = mask_of(*w);
        words |= *w;
        overs |= start & mask;
        masks |= mask;
        laps += lap(start, last);
        last = start | mask;
    }
    if clean(order, words, overs, masks, laps) {
        Some(u64::from(last) + 1)
    } else {
        None
    }
}

fn low_half(w: u64) -> u32
    ensures { result ≡ start_of w }
{
    (w % 0x1_0000_0000) as u32
}

// The size of a record's block less 1, of a class below 32.
fn mask_of(w: u64) -> u32
    ensures { result ≡ mask_of w }
{
    (1u32 << ((w >> 57) % 32)) - 1
}

// 1 where a block starts at or before the last frame of the one before it: counted, since a sum is cheaper in vectors than a choice.
fn lap(start: u32, last: u32) -> u32
    ensures { Lap start last result }
{
    u32::from(start <= last)
}

// Nothing wrong was gathered: in the words or-ed no zero field and no class of 32 or more, no start above a multiple of its size, no
// mask of a class that is not below ORDER, and no lap.
fn clean(order: u64, words: u64, overs: u32, masks: u32, laps: u32) -> bool
    requires { (1 ≤ order) × (order ≤ 33) }
    ensures { result ≡ cleanb order words overs masks laps }
{
    gap_of(words) == 0
        && table::class_of(words) < 32
        && overs == 0
        && u64::from(masks) < 1u64 << (order - 1)
        && laps == 0
}

// The fields of word 0 and of a record that are zero in a sound table.
fn rest_of(w: u64) -> u64
    ensures { result ≡ rest_of w }
{
    w % 0x400_0000_0000
}

fn gap_of(w: u64) -> u64
    ensures { result ≡ gap_of w }
{
    (w >> 32) % 0x200_0000
}

// What a record's start is above a multiple of its size. By a mask, since a division by a variable is slow.
fn over_of(w: u64) -> u64
    ensures { result ≡ start_of w % 2 ^ class_of w }
{
    table::start_of(w) & (table::size_of(w) - 1)
}
