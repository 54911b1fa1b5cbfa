// Words written by the run: its tail moved in place, to open or close a gap before it, and zeros.
ghost use Rattle.std.specs.Prelude.{◌≡◌, ◌++◌, ◌+◌, ◌-◌, ◌≤◌, length, take, drop, replicate};
ghost use Rattle.words.specs.Words.{pad};

// Moves the words [from, end) so that they start at `to`; the words below `to` stay. All words after them are zero, before and after.
pub fn move_tail(t: &mut [u64], from: usize, to: usize, end: usize)
    requires { (from ≤ end) × (end ≤ length t.old) × (end + to ≤ length t.old + from) × (drop end t.old ≡ replicate (length t.old - end) 0) }
    ensures { t.new ≡ take to t.old ++ pad (length t.old - to) (drop from t.old) }
{
    // nothing moves: a block granted or freed as it stands changes its own word alone
    if from == to {
        return;
    }
    t.copy_within(from..end, to);
    if to < from {
        t[end - (from - to)..end].fill(0);
    }
}

// Writes zero to every word.
pub fn clear(t: &mut [u64])
    ensures { t.new ≡ replicate (length t.old) 0 }
{
    t.fill(0);
}
