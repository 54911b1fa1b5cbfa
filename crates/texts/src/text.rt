// Bytes into a buffer: what has no place in it is left out, and nothing else of it changes.
ghost use Rattle.texts.specs.Put.{Put};

// Puts text at a place, and answers the place after it.
pub fn put(text: &[u8], out: &mut [u8], at: usize) -> usize
    ensures { Put text.now out.old at result out.new }
{
    if out.len() <= at {
        return at;
    }
    let n = text.len().min(out.len() - at);
    out[at..at + n].copy_from_slice(&text[..n]);
    at + n
}
