// The arithmetic of buddy blocks: sizes, rounding, the lowest set bit, the buddy, and the next piece of a cut.
// Numbers alone, no memory. Every function has an answer for every number; specs/Blocks.antt says which.

#![tactic(auto)]

ghost use Rattle.std.specs.Prelude.{◌≡◌};
ghost use Rattle.blocks.specs.Blocks.{size_of, size_class, prev_power_of_two, rounded, rounded_aligned, is_power_of_two, lowest_bit, buddy_of, piece_size};

// The 33 block sizes. Their rule is proved once over all entries, in proofs/size_of.
const SIZES: [u64; 33] = [
    1, 2, 4, 8, 16, 32, 64, 128, 256, 512, 1024, 2048, 4096, 8192, 16384, 32768, 65536, 131072,
    262144, 524288, 1048576, 2097152, 4194304, 8388608, 16777216, 33554432, 67108864, 134217728,
    268435456, 536870912, 1073741824, 2147483648, 4294967296,
];

// The size of a block of the class, from the fixed table: 2^class, and 0 for a class above 32, which has no blocks.
pub fn size_of(class: u64) -> u64
    ensures { result ≡ size_of class }
{
    if class <= 32 {
        SIZES[class as usize]
    } else {
        0
    }
}

// Kept: 0 at 0 is a number in the definition `prev_power_of_two`, and `size_of` and `piece_size` have it likewise, so these are no Option.
// The largest power of two that is at most num; 0 at 0, where the Rust stops.
pub fn prev_power_of_two(num: u64) -> u64
    ensures { result ≡ prev_power_of_two num }
{
    if num == 0 {
        return 0;
    }
    1u64 << (63 - num.leading_zeros())
}

// The class of a size that is a power of two.
pub fn class_of(size: u64) -> u64
    ensures { result ≡ size_class size }
{
    u64::from(size.trailing_zeros())
}

// The class that a count is rounded to, that of the least block which holds it: 0 and 1 to class 0; None for a count above 2^32.
pub fn round(count: u64) -> Option<u64>
    ensures { result ≡ rounded count }
{
    if size_of(32) < count {
        return None;
    }
    if count == 0 {
        return Some(0);
    }
    Some(u64::from(64 - (count - 1).leading_zeros()))
}

// The class of an aligned request: the larger of the rounded size and the alignment.
pub fn round_aligned(size: u64, align: u64) -> Option<u64>
    ensures { result ≡ rounded_aligned size align }
{
    if size < align {
        return round(align);
    }
    round(size)
}

// Whether num is one of 1, 2, 4, .., 2^63. By a mask, since the library counts the ones, which not every machine does at once.
pub fn is_power_of_two(num: u64) -> bool
    ensures { result ≡ is_power_of_two num }
{
    if num == 0 {
        return false;
    }
    num & (num - 1) == 0
}

// The largest power of two that divides start, and 0 for 0: start masked with its wrapping negation.
pub fn lowest_bit(start: u64) -> u64
    ensures { result ≡ lowest_bit start }
{
    start.wrapping_neg() & start
}

// The block beside the one at start: start with its bit class flipped. A class above 32 has no blocks, and leaves start.
pub fn buddy(start: u64, class: u64) -> u64
    ensures { result ≡ buddy_of class start }
{
    start ^ size_of(class)
}

// The size of the next piece of a cut that stands at start, has left frames to go, and may use blocks up to class top. It is 0 where
// nothing is left or top is no class.
pub fn piece(start: u64, left: u64, top: u64) -> u64
    ensures { result ≡ piece_size top start left }
{
    let within = prev_power_of_two(left).min(size_of(top));
    if start == 0 {
        return within;
    }
    let low = lowest_bit(start);
    low.min(within)
}
