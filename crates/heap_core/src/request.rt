// What a request asks for: its class.
ghost use Rattle.std.specs.Prelude.{◌≡◌};
ghost use Rattle.heap_core.specs.Deciding.{class_for};

// Kept: 33 is the number in the definition `class_for`, on which the theorems of heap_laws rest, so it is no Option.
// The class of a size and an alignment: at least that of a word, and 33, a class of no heap, above every block.
pub fn class_for(size: u64, align: u64) -> u64
    ensures { result ≡ class_for size align }
{
    blocks::round_aligned(size, align).map_or(33, |class| class.max(3))
}
