// A name: 1 to 16 letters, digits, `_` and `.`.

#![tactic(auto)]

ghost use Rattle.std.specs.Prelude.{◌≡◌, ◌-◌, ◌≤◌, true, take, drop, replicate};
ghost use Rattle.name.specs.Texts.{is_name};

pub mod bytes;
pub mod methods;
pub mod refusal;

pub use bytes::same_bytes;
pub use refusal::BadName;

// The first `len` of the bytes are the name, and the others are 0.
#[derive(Clone, Copy, Debug, Eq)]
pub struct Name {
    // A buffer with its length: a name is kept in memory of a fixed size.
    bytes: [u8; 16],
    len: usize,
    ghost short: { len ≤ 16 },
    ghost named: { is_name (take len bytes) ≡ true },
    ghost padded: { drop len bytes ≡ replicate (16 - len) 0 },
}
