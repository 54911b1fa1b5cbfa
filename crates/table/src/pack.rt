// The words that a table is made of, packed from their fields. A number too large for its field is cut to it.
ghost use Rattle.std.specs.Prelude.{◌≡◌, ◌%◌, ◌^◌, length};
ghost use Rattle.rules.specs.Rules.{blk};
ghost use Rattle.table.specs.Layout.{State, mark_word, word_of, head_of};

// The word of a record.
pub fn record_word(granted: bool, class: u64, start: u64) -> u64
    ensures { result ≡ word_of (blk granted (class % 64) (start % 2 ^ 32)) }
{
    mark_word(granted) + class % 64 * 0x200_0000_0000_0000 + start % 0x1_0000_0000
}

fn mark_word(granted: bool) -> u64
    ensures { result ≡ mark_word granted }
{
    if granted { 0x8000_0000_0000_0000 } else { 0 }
}

// Word 0 of every table of this ORDER that has this many records.
pub fn head_word(order: u64, count: u64) -> u64
    ensures { (st : State) → st.order ≡ order % 64 → length st.blocks ≡ count % 65536 → result ≡ head_of st }
{
    order % 64 * 0x400_0000_0000_0000 + count % 65536 * 0x400_0000_0000
}
