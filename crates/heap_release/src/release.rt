// A granted block released, or cleared.
ghost use Rattle.std.specs.Prelude.{◌≡◌, true};
ghost use Rattle.heap_blocks.specs.Sound.{soundb};
ghost use Rattle.heap_state.specs.State.{state};
ghost use Rattle.heap_release.specs.Releasing.{releasing, zeroing};
ghost use Rattle.heap_core.specs.Deciding.{Carries};

use answers::Refusal;
use heap_core::{class_for, refused};
use heap_state::{Heap, Reply};

// The block that was granted at the address for this size and alignment becomes free; answers how many nodes were compared with its buddies.
pub fn release_bytes(
    h: Heap,
    arena: &mut [u64],
    ledger: &mut [u64],
    address: u64,
    size: u64,
    align: u64,
) -> Reply
    requires { soundb h arena.old ledger.old ≡ true }
    ensures { Carries (state h arena.old ledger.old) (releasing address size align (state h arena.old ledger.old)) result arena.new ledger.new }
{
    if !blocks::is_power_of_two(align) {
        return refused(h, Refusal::BadAlign);
    }
    let class = class_for(size, align);
    let found = ledger::find(ledger, h.count, class, size, address);
    let Some(i) = found else {
        return refused(h, Refusal::NotGranted);
    };
    ledger::strike(ledger, h.count, i);
    let mut g = h;
    let compared = heap_moves::release_block(&mut g.heads, arena, h.order - 1, class, address);
    g.count = h.count - 1;
    g.user = h.user - size;
    g.allocated = h.allocated - blocks::size_of(class);
    Reply {
        answer: Ok(compared),
        heap: g,
    }
}

// Clears the words of the bytes that were asked for, of the block that was granted at the address for this size and alignment.
pub fn zero_bytes(
    h: Heap,
    arena: &mut [u64],
    ledger: &[u64],
    address: u64,
    size: u64,
    align: u64,
) -> Reply
    requires { soundb h arena.old ledger.now ≡ true }
    ensures { Carries (state h arena.old ledger.now) (zeroing address size align (state h arena.old ledger.now)) result arena.new ledger.now }
{
    if !blocks::is_power_of_two(align) {
        return refused(h, Refusal::BadAlign);
    }
    let class = class_for(size, align);
    let found = ledger::find(ledger, h.count, class, size, address);
    let Some(_) = found else {
        return refused(h, Refusal::NotGranted);
    };
    let from = (address / 8) as usize;
    let to = from + ((size + 7) / 8) as usize;
    words::clear(&mut arena[from..to]);
    Reply {
        answer: Ok(0),
        heap: h,
    }
}
