// The nodes of a list for a `for`: an iterator, or the refusal.
ghost use Rattle.std.specs.Prelude.{◌≡◌, true, false, IfOk, IfErr};
ghost use Rattle.answers.specs.declared.Refusal.TheVariants.{BadState};
ghost use Rattle.heap_blocks.specs.Sound.{soundb};
ghost use Rattle.heap_reader.specs.Reading.{list_of};

use answers::Refusal;
use heap_state::Heap;
use linked_list::{Nodes, iter};

// The list of this class; a heap that is not sound is not read, and a class without a list has no node.
pub fn nodes<'a>(
    h: Heap,
    arena: &'a [u64],
    ledger: &[u64],
    class: u64,
) -> Result<Nodes<'a>, Refusal>
    ensures ok { IfOk result (λ nodes. (soundb h arena.now ledger.now ≡ true) × (nodes ≡ list_of h arena.now class)) }
    ensures err { IfErr result (λ refusal. (soundb h arena.now ledger.now ≡ false) × (refusal ≡ BadState)) }
{
    if !heap_sound::sound(h, arena, ledger) {
        return Err(Refusal::BadState);
    }
    if class >= 33 {
        return Ok(iter(0, arena, arena.len()));
    }
    Ok(iter(h.heads[class as usize], arena, arena.len()))
}
