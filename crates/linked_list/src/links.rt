// The link in a node's word, read and written.
ghost use Rattle.std.specs.Prelude.{◌≡◌};
ghost use Rattle.linked_list.specs.Links.{next, linked};

// The address of the node after this one: a step of the Rust's `iter`.
pub fn next(arena: &[u64], node: u64) -> u64
    ensures { result ≡ next arena.now node }
{
    let word = (node / 8) as usize;
    if word < arena.len() { arena[word] } else { 0 }
}

pub fn set_next(arena: &mut [u64], node: u64, link: u64)
    ensures { arena.new ≡ linked arena.old node link }
{
    let word = (node / 8) as usize;
    if word < arena.len() {
        arena[word] = link;
    }
}
