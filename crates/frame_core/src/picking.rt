// Which block serves a grant.
ghost use Rattle.std.specs.Prelude.{◌≡◌, ◌-◌, ◌<◌, ◌≤◌, length, slice_index};
ghost use Rattle.rules.specs.Rules.{smallest};
ghost use Rattle.table.specs.Layout.{count_of, blocks_of};
ghost use Rattle.frame_core.specs.Pick.{betterb};

// Whether the record is free, large enough, and of a lower class than the best so far: by one comparison, since the pass goes over every
// record. A granted record's mark stands above its class, so the two together are 64 or more, and a class that is too small wraps far up.
fn better(class: u64, low: u64, w: u64) -> bool
    requires { (class ≤ low) × (low ≤ 64) }
    ensures { result ≡ betterb class low w }
{
    (w >> 57).wrapping_sub(class) < low - class
}

// The place of the free block of the smallest class from `class` to `order` - 1, and in it of the lowest start, in one pass.
pub fn pick(t: &[u64], order: u64, class: u64) -> Option<usize>
    requires { (count_of (slice_index t.now 0) < length t.now) × (class < order) × (order ≤ 64) }
    ensures { result ≡ smallest (order - class) class 0 (blocks_of t.now) }
{
    let count = table::count_of(t[0]);
    let mut low = order;
    let mut best = None;
    for (i, w) in t[1..count + 1].iter().enumerate() {
        if better(class, low, *w) {
            low = table::class_of(*w);
            best = Some(i);
            // a block that fits exactly: none after it is better
            if low == class {
                return best;
            }
        }
    }
    best
}
