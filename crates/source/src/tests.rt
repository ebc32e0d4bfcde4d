// What text and value answer: a value of each type, and each refusal.
use crate::{AttributeValue, Source, text, value};
use refusal::{Kind, Layer, Refusal};
use span::{Node, Place, Range, Record, Records};
use std::process::Abort;

static BYTES: [u8; 5] = *b"hello";

const REFUSED: Refusal = Refusal {
    kind: Kind::BadRecord,
    layer: Layer::NoLayer,
    place: 0,
};

#[test]
fn texts(rt: HostRuntime) {
    let source = Source { bytes: &BYTES };
    let cases: [(usize, usize, Result<&[u8], Refusal>); 11] = [
        (0, 5, Ok(b"hello")),
        (1, 3, Ok(b"ell")),
        (5, 0, Ok(b"")),
        (6, 0, Err(REFUSED)),
        (5, 1, Err(REFUSED)),
        (0, 6, Err(REFUSED)),
        (0, usize::MAX, Err(REFUSED)),
        (1, usize::MAX, Err(REFUSED)),
        (usize::MAX, 0, Err(REFUSED)),
        (usize::MAX, 1, Err(REFUSED)),
        (usize::MAX, usize::MAX, Err(REFUSED)),
    ];
    for (offset, length, expected) in cases {
        let place = Place { offset, length };
        assert_eq!(rt; text(source, place), expected, "at {offset}, {length}");
    }
}

// A node and what value answers of it.
type Case = (Node, Result<AttributeValue<'static>, Refusal>);

// A node without a key, by its type number, pattern, place and how many are inside.
fn node(type_number: u8, pattern: u64, place: (usize, usize), inside: usize) -> Node {
    Node {
        key: Place::blank(),
        type_number,
        pattern,
        place: Place {
            offset: place.0,
            length: place.1,
        },
        inside,
    }
}

fn push_nodes(rt: &impl Abort, records: &mut Records, cases: &[Case]) {
    for (node, _) in cases {
        assert!(rt; records.nodes.push(*node).is_some());
    }
}

fn check_values(rt: &impl Abort, records: &Records, cases: &[Case]) {
    let source = Source { bytes: &BYTES };
    for (index, (_, expected)) in cases.iter().enumerate() {
        assert_eq!(rt; value(source, records, index), *expected, "at {index}");
    }
    assert_eq!(rt; value(source, records, cases.len()), Err(REFUSED));
    assert_eq!(rt; value(source, records, usize::MAX), Err(REFUSED));
}

// With these nodes taken, and room for more.
fn check_nodes(rt: &impl Abort, cases: &[Case]) {
    let mut memory = [Node::blank(); 12];
    let mut records = Records::new(&mut [], &mut [], &mut [], &mut [], &mut memory);
    push_nodes(rt, &mut records, cases);
    check_values(rt, &records, cases);
}

#[test]
fn values(rt: HostRuntime) {
    check_nodes(
        &rt,
        &[
            (node(1, 0, (0, 4), 0), Ok(AttributeValue::String(b"hell"))),
            (node(2, 0, (0, 0), 0), Ok(AttributeValue::Bool(false))),
            (node(2, 1, (0, 0), 0), Ok(AttributeValue::Bool(true))),
            (node(3, 7, (0, 0), 0), Ok(AttributeValue::Float(7))),
            (
                node(4, 0xffff_ffff_ffff_fffe, (0, 0), 0),
                Ok(AttributeValue::Int(-2)),
            ),
            (node(5, 0, (4, 1), 0), Ok(AttributeValue::Bytes(b"o"))),
            (
                node(6, 0, (0, 0), 2),
                Ok(AttributeValue::List(Range { first: 7, count: 2 })),
            ),
            (
                node(6, 0, (0, 0), 0),
                Ok(AttributeValue::List(Range { first: 0, count: 0 })),
            ),
            (
                node(7, 0, (0, 0), 0),
                Ok(AttributeValue::KeyValue(Range { first: 0, count: 0 })),
            ),
            // as many inside as there are behind it
            (
                node(7, 0, (0, 0), 1),
                Ok(AttributeValue::KeyValue(Range {
                    first: 10,
                    count: 1,
                })),
            ),
            (node(4, 5, (0, 0), 0), Ok(AttributeValue::Int(5))),
        ],
    );
}

#[test]
fn refusals(rt: HostRuntime) {
    check_nodes(
        &rt,
        &[
            // no such type
            (node(0, 0, (0, 0), 0), Err(REFUSED)),
            (node(8, 0, (0, 0), 0), Err(REFUSED)),
            // a Bool that is neither 0 nor 1
            (node(2, 2, (0, 0), 0), Err(REFUSED)),
            // something inside what is no list and no map
            (node(2, 1, (0, 0), 1), Err(REFUSED)),
            (node(4, 5, (0, 0), 1), Err(REFUSED)),
            // a text and a binary outside the bytes
            (node(1, 0, (6, 0), 0), Err(REFUSED)),
            (node(1, 0, (4, 2), 0), Err(REFUSED)),
            (node(5, 0, (4, usize::MAX), 0), Err(REFUSED)),
            // more inside than there are behind it
            (node(6, 0, (0, 0), 3), Err(REFUSED)),
            (node(7, 0, (0, 0), usize::MAX), Err(REFUSED)),
            (node(4, 5, (0, 0), 0), Ok(AttributeValue::Int(5))),
        ],
    );
}
