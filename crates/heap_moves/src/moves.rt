// Blocks moved between the lists of a heap: those of an added range, of a grant, of a release.
// Kept: heads and arena stay two parameters, since one call writes both and another reads the arena alone.
// Kept: `class < 33` stands as it is in each contract, since it is the bound of an index into the 33 heads, which a name would hide.
ghost use Rattle.std.specs.Prelude.{◌≡◌, ◌+◌, ◌-◌, ◌^◌, ◌≤◌, ◌<◌, length};
ghost use Rattle.heap_state.specs.Lists.{push, pop, push_all, release};
ghost use Rattle.heap_moves.specs.Moves.{mem, Servable, Popped, TakenOut, taken_out, released};

use answers::{Answer, Refusal};
use linked_list::Previous;

// The block becomes the first of its class.
fn push(heads: &mut [u64; 33], arena: &mut [u64], class: u64, block: u64)
    requires { class < 33 }
    ensures { mem heads.new arena.new ≡ push class block (mem heads.old arena.old) }
{
    let at = class as usize;
    heads[at] = linked_list::push(heads[at], arena, block);
}

// The first block of the class leaves its list.
fn drop_first(heads: &mut [u64; 33], arena: &[u64], class: u64)
    requires { class < 33 }
    ensures { mem heads.new arena.now ≡ pop class (mem heads.old arena.now) }
{
    let at = class as usize;
    heads[at] = linked_list::next(arena, heads[at]);
}

// The first block of the class leaves its list, and is answered; nothing where the list has none.
fn pop(heads: &mut [u64; 33], arena: &[u64], class: u64) -> Option<u64>
    requires { class < 33 }
    ensures { Popped class (mem heads.old arena.now) result (mem heads.new arena.now) }
{
    let at = class as usize;
    let first = linked_list::pop(heads[at], arena)?;
    heads[at] = first.head;
    Some(first.block)
}

// The first block of class `from` is halved down to `class`, each time the upper half pushed and then the lower, and the block of `class`
// that comes out is taken from its list. A list that has no block stops it.
pub fn take_block(heads: &mut [u64; 33], arena: &mut [u64], from: u64, class: u64) -> Answer
    requires { Servable (mem heads.old arena.old) from class }
    ensures { TakenOut from class (mem heads.old arena.old) result (mem heads.new arena.new) }
{
    for k in (class..from).rev() {
        let Some(first) = pop(heads, arena, k + 1) else {
            return Err(Refusal::NoBlock);
        };
        let upper = first + blocks::size_of(k);
        push(heads, arena, k, upper);
        push(heads, arena, k, first);
    }
    let Some(first) = pop(heads, arena, class) else {
        return Err(Refusal::NoBlock);
    };
    Ok(first)
}

// A node leaves its list, by the place of the link to it.
fn take_out(heads: &mut [u64; 33], arena: &mut [u64], class: u64, previous: Previous, node: u64)
    requires { class < 33 }
    ensures { mem heads.new arena.new ≡ taken_out class previous node (mem heads.old arena.old) }
{
    let at = class as usize;
    heads[at] = linked_list::remove(heads[at], arena, previous, node);
}

// The block becomes free, and is joined with its buddy as long as that is free too, below class `top`. Answers how many nodes were compared.
pub fn release_block(
    heads: &mut [u64; 33],
    arena: &mut [u64],
    top: u64,
    class: u64,
    block: u64,
) -> u64
    requires { (class < 33) × (top < 33) × (length arena.old ≤ 1048576) }
    ensures { released result (mem heads.new arena.new) ≡ release top class block (mem heads.old arena.old) }
{
    push(heads, arena, class, block);
    let mut low = block;
    let mut compared: u64 = 0;
    for k in class..top {
        let buddy = blocks::buddy(low, k);
        let most = arena.len() as u64;
        let search = linked_list::find(heads[k as usize], arena, buddy, most);
        compared += search.compared;
        if !search.found {
            return compared;
        }
        take_out(heads, arena, k, search.previous, buddy);
        drop_first(heads, arena, k);
        low = low.min(buddy);
        push(heads, arena, k + 1, low);
    }
    compared
}

// Kept: a walk over pieces, as `pieces` of frame_add has it and for the reason given there.
// The n bytes from start on are cut into blocks up to class `top`, and each is pushed.
pub fn push_pieces(heads: &mut [u64; 33], arena: &mut [u64], top: u64, start: u64, n: u64)
    requires { (top < 33) × (start + n < 2 ^ 64) }
    ensures { mem heads.new arena.new ≡ push_all n top start n (mem heads.old arena.old) }
{
    let mut from = start;
    let mut left = n;
    while 0 < left {
        let size = blocks::piece(from, left, top);
        push(heads, arena, blocks::class_of(size), from);
        from += size;
        left -= size;
    }
}
