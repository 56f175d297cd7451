// The forms of a number in a text: counts of kids, costs, cycles and payloads.

#![tactic(auto)]

ghost use Rattle.std.specs.Prelude.{◌≡◌, ◌^◌, ◌<◌, ◌≤◌, IfSome};
ghost use Rattle.form.specs.Numbers.{digits_of, at_most, rounded, kids_of, cost_of, decimal_of, cycles_of, payload_of};

// The number that 1 to `width` digits write.
fn digits(text: &[u8], width: usize) -> Option<u64>
    requires { width ≤ 10 }
    ensures value { result ≡ digits_of width text.now }
    ensures bound { IfSome result (λ n. n < 10 ^ 10) }
{
    if text.is_empty() || text.len() > width {
        return None;
    }
    let mut n: u64 = 0;
    for byte in text {
        if !byte.is_ascii_digit() {
            return None;
        }
        n = n * 10 + (*byte - b'0') as u64;
    }
    Some(n)
}

// The number that 1 to `width` digits write, if it is at most `most`.
fn limited(text: &[u8], width: usize, most: u64) -> Option<u64>
    requires { width ≤ 10 }
    ensures value { result ≡ at_most most (digits_of width text.now) }
    ensures bound { IfSome result (λ n. n ≤ most) }
{
    digits(text, width).filter(|n| *n <= most)
}

// How many kids an operator takes: one digit, at most 2.
pub fn kids_of(text: &[u8]) -> Option<u32>
    ensures { result ≡ kids_of text.now }
{
    limited(text, 1, 2).map(|n| n as u32)
}

// A cost: one to four digits, at most 1,000.
pub fn cost_of(text: &[u8]) -> Option<u32>
    ensures { result ≡ cost_of text.now }
{
    limited(text, 4, 1000).map(|n| n as u32)
}

// Wholes and tenths as wholes: a half goes upwards.
fn rounded_to_whole(whole: u64, tenths: u64) -> u64
    requires { whole < 10 ^ 10 }
    ensures { result ≡ rounded whole tenths }
{
    if tenths >= 5 { whole + 1 } else { whole }
}

// One to four digits, and perhaps a point and one digit, rounded to whole.
fn decimal(text: &[u8]) -> Option<u64>
    ensures { result ≡ decimal_of text.now }
{
    match text {
        [whole @ .., b'.', tenth] => Some(rounded_to_whole(
            digits(whole, 4)?,
            digits(&[*tenth], 1)?,
        )),
        _ => digits(text, 4),
    }
}

// Cycles: a decimal that is at most 1,000 once it is rounded.
pub fn cycles_of(text: &[u8]) -> Option<u32>
    ensures { result ≡ cycles_of text.now }
{
    decimal(text).filter(|n| *n <= 1000).map(|n| n as u32)
}

// A payload: an optional `-` and one to ten digits, in the range of the answer.
pub fn payload_of(text: &[u8]) -> Option<i32>
    ensures { result ≡ payload_of text.now }
{
    match text {
        [b'-', rest @ ..] => limited(rest, 10, 2147483648).map(|n| (-(n as i64)) as i32),
        _ => limited(text, 10, 2147483647).map(|n| n as i32),
    }
}
