// The heap for C: what heap_held does with the record held in place, its answers as two numbers, under the names of include/lavikety.h.

#![tactic(auto)]

mod adding;
mod granting;
mod making;
mod stats;

pub use adding::{lavikety_heap_add, lavikety_heap_init};
pub use granting::{lavikety_heap_alloc, lavikety_heap_dealloc, lavikety_heap_zero};
pub use making::lavikety_heap_new;
pub use stats::{
    lavikety_heap_stats_alloc_actual, lavikety_heap_stats_alloc_user,
    lavikety_heap_stats_total_bytes,
};
