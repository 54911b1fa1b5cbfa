// Lengths, ORDER and ledger count in range.
ghost use Rattle.std.specs.Prelude.{◌≡◌, ◌&&◌, leb};
ghost use Rattle.heap_state.specs.State.{lengthsb, orderb};

use super::Heap;

pub(crate) fn lengths_ok(arena: usize, ledger: usize) -> bool
    ensures { result ≡ lengthsb arena ledger }
{
    if arena < 2 {
        return false;
    }
    if arena > 1048576 {
        return false;
    }
    if ledger < 1 {
        return false;
    }
    if ledger > 65535 {
        return false;
    }
    true
}

pub(crate) fn order_ok(order: u64) -> bool
    ensures { result ≡ orderb order }
{
    if order < Heap::MIN_ORDER {
        return false;
    }
    if order > Heap::MAX_ORDER {
        return false;
    }
    true
}

pub fn ranges_ok(order: u64, count: u64, arena: usize, ledger: usize) -> bool
    ensures { result ≡ lengthsb arena ledger && orderb order && leb count ledger }
{
    if !lengths_ok(arena, ledger) {
        return false;
    }
    if !order_ok(order) {
        return false;
    }
    count <= ledger as u64
}
