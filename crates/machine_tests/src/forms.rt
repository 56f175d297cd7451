// The forms of numbers and items, and the places of fields.
use crate::reading::check_case;
use field::{Field, FieldFault, FieldRefusal, LineReader, Placed};
use form::{cost_of, cycles_of, kids_of, payload_of};
use std::process::Abort;
use std::test::Fail;

#[derive(Clone, Copy)]
enum Form {
    Kids,
    Cost,
    Cycles,
    Payload,
}

// A text, and the number that it is in a form, if it is one.
struct Number(Form, &'static str, Option<i64>);

static NUMBERS: [Number; 59] = [
    Number(Form::Kids, "0", Some(0)),
    Number(Form::Kids, "1", Some(1)),
    Number(Form::Kids, "2", Some(2)),
    Number(Form::Kids, "3", None),
    Number(Form::Kids, "12", None),
    Number(Form::Kids, "", None),
    Number(Form::Kids, "-", None),
    Number(Form::Cost, "0", Some(0)),
    Number(Form::Cost, "1000", Some(1000)),
    Number(Form::Cost, "1001", None),
    Number(Form::Cost, "0999", Some(999)),
    Number(Form::Cost, "9999", None),
    Number(Form::Cost, "00001", None),
    Number(Form::Cost, "", None),
    Number(Form::Cost, "1.0", None),
    Number(Form::Cost, "-1", None),
    Number(Form::Cost, "+1", None),
    Number(Form::Cost, " 1", None),
    Number(Form::Cost, "1/", None),
    Number(Form::Cost, "1:", None),
    Number(Form::Cycles, "1000", Some(1000)),
    Number(Form::Cycles, "1001", None),
    Number(Form::Cycles, "1000.0", Some(1000)),
    Number(Form::Cycles, "1000.4", Some(1000)),
    Number(Form::Cycles, "1000.5", None),
    Number(Form::Cycles, "999.4", Some(999)),
    Number(Form::Cycles, "999.5", Some(1000)),
    Number(Form::Cycles, "0.4", Some(0)),
    Number(Form::Cycles, "0.5", Some(1)),
    Number(Form::Cycles, "1.5", Some(2)),
    Number(Form::Cycles, "2.4", Some(2)),
    Number(Form::Cycles, "2.5", Some(3)),
    Number(Form::Cycles, "2.9", Some(3)),
    Number(Form::Cycles, "0007.0", Some(7)),
    Number(Form::Cycles, "00007.0", None),
    Number(Form::Cycles, "1.", None),
    Number(Form::Cycles, ".5", None),
    Number(Form::Cycles, ".", None),
    Number(Form::Cycles, "", None),
    Number(Form::Cycles, "1.55", None),
    Number(Form::Cycles, "1.5.5", None),
    Number(Form::Cycles, "1.x", None),
    Number(Form::Cycles, "12345", None),
    Number(Form::Cycles, "-1.0", None),
    Number(Form::Payload, "0", Some(0)),
    Number(Form::Payload, "-0", Some(0)),
    Number(Form::Payload, "-1", Some(-1)),
    Number(Form::Payload, "2147483647", Some(2147483647)),
    Number(Form::Payload, "2147483648", None),
    Number(Form::Payload, "-2147483648", Some(-2147483648)),
    Number(Form::Payload, "-2147483649", None),
    Number(Form::Payload, "0000000001", Some(1)),
    Number(Form::Payload, "00000000001", None),
    Number(Form::Payload, "-0000000001", Some(-1)),
    Number(Form::Payload, "-00000000001", None),
    Number(Form::Payload, "", None),
    Number(Form::Payload, "-", None),
    Number(Form::Payload, "--1", None),
    Number(Form::Payload, "+1", None),
];

fn value_of(form: Form, text: &[u8]) -> Option<i64> {
    match form {
        Form::Kids => Some(kids_of(text)? as i64),
        Form::Cost => Some(cost_of(text)? as i64),
        Form::Cycles => Some(cycles_of(text)? as i64),
        Form::Payload => Some(payload_of(text)? as i64),
    }
}

#[test]
fn numbers(rt: HostRuntime) {
    for (i, Number(form, text, value)) in NUMBERS.iter().enumerate() {
        check_case(&rt, i, value_of(*form, text.as_bytes()), *value);
    }
}

// An item of a tree, and its operator and payload.
struct Item(&'static str, Result<(&'static str, i32), FieldRefusal>);

static ITEMS: [Item; 18] = [
    Item("X", Ok(("X", 0))),
    Item("X=7", Ok(("X", 7))),
    Item("X=-0", Ok(("X", 0))),
    Item("X=-2147483648", Ok(("X", -2147483648))),
    Item("X=2147483647", Ok(("X", 2147483647))),
    Item("ABCDEFGHIJKLMNOP=5", Ok(("ABCDEFGHIJKLMNOP", 5))),
    Item("X=2147483648", Err(FieldRefusal::BadNumber)),
    Item("X=", Err(FieldRefusal::BadNumber)),
    Item("X=-", Err(FieldRefusal::BadNumber)),
    Item("X==1", Err(FieldRefusal::BadNumber)),
    Item("X=1=2", Err(FieldRefusal::BadNumber)),
    Item("X=1.5", Err(FieldRefusal::BadNumber)),
    Item("", Err(FieldRefusal::BadName)),
    Item("=", Err(FieldRefusal::BadName)),
    Item("=1", Err(FieldRefusal::BadName)),
    Item("-", Err(FieldRefusal::BadName)),
    Item("?=x", Err(FieldRefusal::BadName)),
    Item("ABCDEFGHIJKLMNOPQ=5", Err(FieldRefusal::BadName)),
];

// The item is the second field of its line.
fn check_item(rt: &impl Abort, text: &[u8], item: &Item) -> Result<(), Fail> {
    let tried = item.0;
    let mut fields = LineReader::new(text, b',');
    assert!(rt; fields.name()?.is(b"goal"), "{tried}");
    match (fields.item(), item.1) {
        (
            Ok(
                Placed {
                    place,
                    field: Field::Item { operator, payload },
                },
            ),
            Ok((name, number)),
        ) => {
            assert_eq!(rt; place, 2, "{tried}");
            assert!(rt; operator == name.as_bytes(), "{tried}");
            assert_eq!(rt; payload, number, "{tried}");
            Ok(())
        }
        (Err(fault), Err(refusal)) => {
            assert_eq!(rt; fault.place, 2, "{tried}");
            assert_eq!(rt; fault.refusal, refusal, "{tried}");
            Ok(())
        }
        _ => Err(Fail::new(format_args!("{tried}: wrong outcome"))),
    }
}

#[test]
fn items(rt: HostRuntime) -> Result<(), Fail> {
    for item in &ITEMS {
        let text = item.0;
        let line = format!(in rt.alloc(); "goal,{text}")?;
        check_item(&rt, line.as_bytes(), item)?;
    }
    Ok(())
}

// A field of a line: its place, its text, and how many fields come after it.
struct Place(usize, &'static str, usize);

static PLACES: [Place; 5] = [
    Place(1, "a", 4),
    Place(2, "", 3),
    Place(3, "-", 2),
    Place(4, "1=2", 1),
    Place(5, "", 0),
];

#[test]
fn fields_have_places(rt: HostRuntime) -> Result<(), Fail> {
    let mut fields = LineReader::new(b"a,,-,1=2,", b',');
    for (i, Place(place, text, left)) in PLACES.iter().enumerate() {
        let part = fields.part()?;
        check_case(&rt, i, part.place, *place);
        check_case(&rt, i, part.text, text.as_bytes());
        check_case(&rt, i, fields.count(), *left);
    }
    let missing = FieldFault {
        place: 6,
        refusal: FieldRefusal::Missing,
    };
    assert_eq!(rt; fields.part().err(), Some(missing));
    Ok(())
}
