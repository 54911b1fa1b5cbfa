// The heap with its record held in place, as the Rust's `&mut self` holds it, for heap_held_c and for whoever keeps the record in its own memory: each
// function copies the record out, calls the by-value core and stores the record that is left. The functions are named as in `heap`.

#![tactic(auto)]

mod adding;
mod granting;
mod making;
mod stats;

pub use adding::{add_to_heap, init};
pub use granting::{alloc, dealloc, zero_fill};
pub use making::new;
pub use stats::{stats_alloc_actual, stats_alloc_user, stats_total_bytes};
