// The parts of a line, and what they say. A name and an item borrow the line.

// A field as it stands, and its place in the line, from 1.
#[derive(Clone, Copy)]
pub struct Part<'a> {
    pub place: usize,
    pub text: &'a [u8],
}

// How a field is to be read. An enum and not a function: the forms of a field are a fixed set.
#[derive(Clone, Copy)]
pub enum Form {
    Name,
    // The number of kids that an operator takes.
    Kids,
    Cost,
    Cycles,
    // A name, or a dash for a kid that is not used.
    Kid,
    // An operator, and perhaps `=` and a payload.
    Item,
}

// What a field says.
#[derive(Clone, Copy)]
pub enum Field<'a> {
    Name(&'a [u8]),
    Number(u32),
    Dash,
    Item { operator: &'a [u8], payload: i32 },
}

// What a field says, and its place in the line, from 1.
#[derive(Clone, Copy)]
pub struct Placed<'a> {
    pub place: usize,
    pub field: Field<'a>,
}
