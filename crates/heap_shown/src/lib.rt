// What a line of `heap_calls` prints. A list is put node by node, since it may be longer than the buffer.

#![tactic(auto)]

mod showing;

pub use showing::{put_nodes, put_printed};
