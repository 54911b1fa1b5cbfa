// The records of a ledger that is in order: one is found, entered and struck out.
// Kept: the number of records stands beside the words, since the promises of `enter` and `strike` are about the words behind them, too, and that of `find`
// speaks of `grants count ledger`.
ghost use Rattle.std.specs.Prelude.{◌≡◌, ◌++◌, suc, ◌^◌, ◌<◌, length, take, drop};
ghost use Rattle.ledger.specs.Ledger.{grant, grant_of, grants, ledger_words, same};
ghost use Rattle.ledger.specs.Ledger as ledger-spec;
ghost use Rattle.ledger.specs.Kept.{InOrder, below, search};

use super::fields::{address_of, class_of, record_word, requested_of};

pub fn find(ledger: &[u64], count: u64, class: u64, requested: u64, address: u64) -> Option<usize>
    requires { InOrder count ledger.now }
    ensures { result ≡ search (same class requested address) (grants count ledger.now) }
{
    let end = count as usize;
    let i = place(ledger, end, address);
    if i < end && is_record(ledger[i], class, requested, address) {
        Some(i)
    } else {
        None
    }
}

// Puts a record into its place; the records after it move up.
pub fn enter(ledger: &mut [u64], count: u64, class: u64, requested: u64, address: u64)
    requires { InOrder count ledger.old × (count < length ledger.old) × (class < 64) × (requested < 2 ^ 24) × (address < 2 ^ 24) }
    ensures { ledger.new ≡ ledger_words (length ledger.old) (ledger-spec.enter (grant class requested address) (grants count ledger.old)) }
{
    let end = count as usize;
    let i = place(ledger, end, address + 1);
    words::move_tail(ledger, i, i + 1, end);
    ledger[i] = record_word(class, requested, address);
}

// Takes record i out; the records after it move down.
pub fn strike(ledger: &mut [u64], count: u64, i: usize)
    requires { InOrder count ledger.old × (i < count) }
    ensures { ledger.new ≡ ledger_words (length ledger.old) (take i (grants count ledger.old) ++ drop (suc i) (grants count ledger.old)) }
{
    words::move_tail(ledger, i + 1, i, count as usize);
}

// How many records have an address below this one: by halves, since addresses ascend.
fn place(ledger: &[u64], count: usize, address: u64) -> usize
    requires { InOrder count ledger.now }
    ensures { result ≡ below address (grants count ledger.now) }
{
    ledger[..count].partition_point(|w| address_of(*w) < address)
}

// Whether a word is the record of these three numbers.
// Kept: as one `&&`, the wrong program another_request_found is refused by nothing but a search that gives up.
fn is_record(w: u64, class: u64, requested: u64, address: u64) -> bool
    ensures { result ≡ same class requested address (grant_of w) }
{
    if class_of(w) != class {
        return false;
    }
    if requested_of(w) != requested {
        return false;
    }
    address_of(w) == address
}
