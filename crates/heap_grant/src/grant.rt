// A block granted, from the first class that has one.
ghost use Rattle.std.specs.Prelude.{◌≡◌, true, [], ◌-◌, ◌≤◌};
ghost use Rattle.heap_state.specs.Lists.{first_class};
ghost use Rattle.heap_blocks.specs.Sound.{soundb};
ghost use Rattle.heap_state.specs.State.{state};
ghost use Rattle.heap_grant.specs.Granting.{granting};
ghost use Rattle.heap_core.specs.Deciding.{Carries};
ghost use Rattle.heap_grant.specs.Parts.{Grantable, grant_done};
ghost use Rattle.heap_moves.specs.Moves.{mem};

use answers::Refusal;
use heap_core::{class_for, refused};
use heap_state::{Heap, Reply};

// All tests come before the first write, since a refused call changes no word.
pub fn grant_bytes(h: Heap, arena: &mut [u64], ledger: &mut [u64], size: u64, align: u64) -> Reply
    requires { soundb h arena.old ledger.old ≡ true }
    ensures { Carries (state h arena.old ledger.old) (granting size align (state h arena.old ledger.old)) result arena.new ledger.new }
{
    if !blocks::is_power_of_two(align) {
        return refused(h, Refusal::BadAlign);
    }
    let class = class_for(size, align);
    if h.order <= class {
        return refused(h, Refusal::NoBlock);
    }
    let from = first_class(&h.heads, class, h.order);
    if 33 <= from {
        return refused(h, Refusal::NoBlock);
    }
    if ledger.len() as u64 <= h.count {
        return refused(h, Refusal::NoRoom);
    }
    grant_from(h, arena, ledger, from, class, size)
}

// Kept: 33 is the number in the definition `first_class`, on which the theorems of heap_laws rest, so it is no Option.
// The first class from `class` to `order` - 1 that has a block; 33 where none has.
fn first_class(heads: &[u64; 33], class: u64, order: u64) -> u64
    requires { order ≤ 33 }
    ensures { result ≡ first_class (order - class) class (mem heads.now []) }
{
    for k in class..order {
        if heads[k as usize] != 0 {
            return k;
        }
    }
    33
}

// The first block of class `from` gives one of `class`, which is entered into the ledger.
fn grant_from(
    h: Heap,
    arena: &mut [u64],
    ledger: &mut [u64],
    from: u64,
    class: u64,
    size: u64,
) -> Reply
    requires { Grantable (state h arena.old ledger.old) from class size }
    ensures { Carries (state h arena.old ledger.old) (grant_done from class size (state h arena.old ledger.old)) result arena.new ledger.new }
{
    let mut g = h;
    let answer = heap_moves::take_block(&mut g.heads, arena, from, class);
    let Ok(block) = answer else {
        return Reply {
            answer: answer,
            heap: h,
        };
    };
    ledger::enter(ledger, h.count, class, size, block);
    g.count = h.count + 1;
    g.user = h.user + size;
    g.allocated = h.allocated + blocks::size_of(class);
    Reply {
        answer: Ok(block),
        heap: g,
    }
}
