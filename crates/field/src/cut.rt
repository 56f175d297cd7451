// Where a byte stands in a text, and how many parts it makes.
ghost use Rattle.std.specs.Prelude.{◌≡◌, ◌≤◌, length};
ghost use Rattle.field.specs.Bytes.{place_of, split_at};

// How many bytes stand before the first `mark`: all of them where there is none.
pub fn place_of(text: &[u8], mark: u8) -> usize
    ensures value { result ≡ place_of mark text.now }
    ensures within { result ≤ length text.now }
{
    let first = text.iter().position(|byte| *byte == mark);
    first.unwrap_or(text.len())
}

// How many parts there are between marks.
pub fn parts(text: &[u8], mark: u8) -> usize
    ensures { result ≡ length (split_at mark text.now) }
{
    // A loop: `split` with `count` takes twice the time, and `filter` with `count` half as much again.
    let mut n = 1;
    for byte in text {
        if *byte == mark {
            n += 1;
        }
    }
    n
}
