// The figures of a summary.
ghost use Rattle.std.specs.Prelude.{◌≡◌, true};
ghost use Rattle.table.specs.Layout.{blocks_of};
ghost use Rattle.table.specs.Sound.{soundb};
ghost use Rattle.frame_core.specs.Tally.{Tallied, free_of};

// Frames granted, frames managed, and the largest free run.
#[derive(Clone, Copy)]
pub struct Figures {
    pub granted: u64,
    pub managed: u64,
    pub largest: u64,
}

// The frames of a record that are free: its size, or none where it is granted.
fn free_of(w: u64, size: u64) -> u64
    ensures { result ≡ free_of w size }
{
    if table::mark_of(w) == 1 { 0 } else { size }
}

// The figures of a sound table, in one pass over its records.
pub fn count_frames(t: &[u64]) -> Figures
    requires { soundb t.now ≡ true }
    ensures { Tallied (blocks_of t.now) result.granted result.managed result.largest }
{
    let count = table::count_of(t[0]);
    let mut granted = 0;
    let mut managed = 0;
    let mut largest = 0;
    for w in &t[1..count + 1] {
        let size = table::end_of(*w) - table::start_of(*w);
        let free = free_of(*w, size);
        granted += size - free;
        managed += size;
        largest = u64::max(largest, free);
    }
    Figures {
        granted,
        managed,
        largest,
    }
}
