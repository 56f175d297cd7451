// A reader of the fields of a line.
ghost use Rattle.std.specs.Prelude.{◌+◌, ◌^◌, ◌<◌, ◌≤◌, length};

mod fields;

// `mark` parts the fields. `cursor` is where the next field begins; past the line's end there is none. `fields` were handed out.
#[derive(Drop)]
pub struct LineReader<'a> {
    line: &'a [u8],
    mark: u8,
    cursor: usize,
    fields: usize,
    ghost short: { length line.now < 2 ^ 63 },
    ghost within: { cursor ≤ length line.now + 1 },
    ghost counted: { fields ≤ cursor },
}
