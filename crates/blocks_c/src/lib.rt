// The functions of `blocks` for C and Rust to call, so that a run can hold them to the Rust. Firmware needs none of them.

#![tactic(auto)]

ghost use Rattle.std.specs.Prelude.{◌≡◌};
ghost use Rattle.blocks.specs.Blocks.{size_of, size_class, prev_power_of_two, rounded, rounded_aligned, is_power_of_two, lowest_bit, buddy_of, piece_size};
ghost use Rattle.blocks_c.specs.Numbers.{class_number, flag};

#[unsafe(no_mangle)]
pub extern "C" fn lavikety_blocks_size_of(class: u64) -> u64
    ensures { result ≡ size_of class }
{
    blocks::size_of(class)
}

#[unsafe(no_mangle)]
pub extern "C" fn lavikety_blocks_class_of(size: u64) -> u64
    ensures { result ≡ size_class size }
{
    blocks::class_of(size)
}

#[unsafe(no_mangle)]
pub extern "C" fn lavikety_blocks_prev_power_of_two(num: u64) -> u64
    ensures { result ≡ prev_power_of_two num }
{
    blocks::prev_power_of_two(num)
}

// A class as a number, since C has no Option: 64 stands for None.
fn class_number(r: Option<u64>) -> u64
    ensures { result ≡ class_number r }
{
    r.unwrap_or(64)
}

#[unsafe(no_mangle)]
pub extern "C" fn lavikety_blocks_round(count: u64) -> u64
    ensures { result ≡ class_number (rounded count) }
{
    class_number(blocks::round(count))
}

#[unsafe(no_mangle)]
pub extern "C" fn lavikety_blocks_round_aligned(size: u64, align: u64) -> u64
    ensures { result ≡ class_number (rounded_aligned size align) }
{
    class_number(blocks::round_aligned(size, align))
}

#[unsafe(no_mangle)]
pub extern "C" fn lavikety_blocks_is_power_of_two(num: u64) -> u64
    ensures { result ≡ flag (is_power_of_two num) }
{
    u64::from(blocks::is_power_of_two(num))
}

#[unsafe(no_mangle)]
pub extern "C" fn lavikety_blocks_lowest_bit(start: u64) -> u64
    ensures { result ≡ lowest_bit start }
{
    blocks::lowest_bit(start)
}

#[unsafe(no_mangle)]
pub extern "C" fn lavikety_blocks_buddy(start: u64, class: u64) -> u64
    ensures { result ≡ buddy_of class start }
{
    blocks::buddy(start, class)
}

#[unsafe(no_mangle)]
pub extern "C" fn lavikety_blocks_piece(start: u64, left: u64, top: u64) -> u64
    ensures { result ≡ piece_size top start left }
{
    blocks::piece(start, left, top)
}
