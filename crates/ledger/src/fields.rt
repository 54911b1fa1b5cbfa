// The fields of a word of a heap's ledger, as specs/Ledger.antt has them. Each reader has an answer for every word, and a number too large
// for its field is cut to it.
ghost use Rattle.std.specs.Prelude.{◌≡◌, ◌%◌};
ghost use Rattle.ledger.specs.Ledger.{grant, class_of, requested_of, gap_of, address_of, word_of};

pub fn class_of(w: u64) -> u64
    ensures { result ≡ class_of w }
{
    w >> 58
}

pub fn requested_of(w: u64) -> u64
    ensures { result ≡ requested_of w }
{
    (w >> 34) % 0x100_0000
}

pub fn gap_of(w: u64) -> u64
    ensures { result ≡ gap_of w }
{
    (w >> 24) % 0x400
}

pub fn address_of(w: u64) -> u64
    ensures { result ≡ address_of w }
{
    w % 0x100_0000
}

// The word of a record.
pub fn record_word(class: u64, requested: u64, address: u64) -> u64
    ensures { result ≡ word_of (grant (class % 64) (requested % 0x100_0000) (address % 0x100_0000)) }
{
    class % 64 * 0x400_0000_0000_0000
        + requested % 0x100_0000 * 0x4_0000_0000
        + address % 0x100_0000
}
