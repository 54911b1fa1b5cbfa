// Words read by the run.
ghost use Rattle.std.specs.Prelude.{◌≡◌, ◌&&◌, drop, length};
ghost use Rattle.words.specs.Words.{zerosb};

// The words from from on are zero.
pub fn zeros_from(t: &[u64], from: usize) -> bool
    ensures { result ≡ zerosb (drop from t.now) }
{
    let Some(ws) = t.get(from..) else {
        return true;
    };
    let third = ws.len() / 3;
    let (first, others) = ws.split_at(third);
    let (second, rest) = others.split_at(third);
    let (last, tail) = rest.split_at(third);
    three_rows(first, second, last) && one_row(tail)
}

fn one_row(ws: &[u64]) -> bool
    ensures { result ≡ zerosb ws.now }
{
    let mut row: u64 = 0;
    for w in ws {
        row |= *w;
    }
    row == 0
}

// Three rows of ors, which do not wait for each other.
fn three_rows(first: &[u64], second: &[u64], last: &[u64]) -> bool
    requires { (length second.now ≡ length first.now) × (length last.now ≡ length first.now) }
    ensures { result ≡ zerosb first.now && (zerosb second.now && zerosb last.now) }
{
    let mut a: u64 = 0;
    let mut b: u64 = 0;
    let mut c: u64 = 0;
    // not a `zip`, which takes 1.2 times as long
    for (i, w) in first.iter().enumerate() {
        a |= *w;
        b |= second[i];
        c |= last[i];
    }
    (a | b | c) == 0
}
