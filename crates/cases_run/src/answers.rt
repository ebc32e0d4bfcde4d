// Inputs, and the lines that are printed of their answers.
use crate::bytes::bytes_of;
use crate::whole::INPUT;
use refusal::Refusal;
use span::{Node, Place, Record, Records, Span, SpanEvent, SpanLink, StringTable, TraceChunk};
use std::alloc::{AllocError, Global};
use std::process::Abort;
use std::test::Fail;
use summary::{Line, Summary, answer_in, answer_to};

// With the pools of the program check_payload.
static IN_CHECK: [(&str, &str); 55] = [
    // The worked cases.
    ("81 0B 90", "ok 3 0 0 0 0 0 1"),
    ("80", "refused 3 1 0"),
    ("83 1E A3 70 70 73 0B 90 06 01", "ok 10 0 0 0 0 0 2"),
    ("83 1E A1 FF 0B 90 06 01", "refused 3 7 7"),
    ("82 06 00 0B 90", "ok 5 0 0 0 0 0 1"),
    ("82 06 D0 00 0B 90", "refused 3 7 2"),
    ("82 06 A1 80 0B 90", "refused 5 7 2"),
    ("82 06 D9", "refused 1 7 2"),
    ("82 06 A3 70", "refused 4 7 2"),
    ("82 0A 93 A1 6B 04 D0 80 0B 90", "ok 10 0 0 0 0 1 2"),
    ("82 0A 92 A1 6B 04 0B 90", "refused 3 6 2"),
    ("84 06 A1 61 05 A1 61 02 02 0B 90", "ok 11 0 0 0 0 0 3"),
    // The further inputs.
    ("", "refused 3 1 0"),
    ("81 FF C0", "refused 3 1 1"),
    ("81 CD 01 00 C0", "refused 3 1 1"),
    ("82 D0 06 A0 0B 90", "ok 6 0 0 0 0 0 2"),
    ("83 06 A1 61 06 A1 62 0B 90", "ok 9 0 0 0 0 0 3"),
    ("82 06", "refused 3 7 2"),
    ("82 06 01 0B 90", "refused 3 7 2"),
    ("82 06 CD 00", "refused 3 7 2"),
    ("82 06 A2 FF", "refused 4 7 2"),
    ("81 0B 91", "refused 3 2 3"),
    ("81 0B 91 80", "refused 3 2 3"),
    ("81 0B 91 81 06 C4 0F", "refused 3 2 5"),
    ("81 0B 91 81 04 91 80", "refused 3 3 6"),
    ("82 0A 93 A1 6B 08 00 0B 90", "refused 3 6 5"),
    ("82 0A 93 A1 6B 03 CA 00 00 00 00 0B 90", "refused 3 6 6"),
    ("82 1E", "refused 3 8 2"),
    ("82 1E C1 0B 90", "refused 3 8 2"),
    ("82 1E 63*91 C0 0B 90", "ok 68 0 0 0 0 0 1"),
    ("82 1E 64*91 C0 0B 90", "refused 8 8 2"),
    ("82 0A 93 A1 61 63*06_92 04 01 0B 90", "ok 135 0 0 0 0 64 2"),
    ("82 0A 93 A1 61 64*06_92 04 01 0B 90", "refused 8 6 133"),
    // No free chunk, span, link, event, node and text.
    (
        "81 0B DC 00 41 65*82_06_C4_10_00_00_00_00_00_00_00_00_00_00_00_00_00_00_00_00_04_90",
        "refused 9 2 1413",
    ),
    (
        "81 0B 91 82 06 C4 10 16*00 04 DC 01 01 257*82_04_01_06_02",
        "refused 9 3 1307",
    ),
    (
        "81 0B 91 82 06 C4 10 16*00 04 91 83 04 01 06 02 0B DC 00 41 65*80",
        "refused 9 4 98",
    ),
    (
        "81 0B 91 82 06 C4 10 16*00 04 91 83 04 01 06 02 0C DC 00 41 65*80",
        "refused 9 5 98",
    ),
    ("82 0A DC 06 03 513*A1_61_04_01 0B 90", "refused 9 6 2053"),
    ("82 1E DC 04 00 1024*A0 0B 90", "refused 10 8 1028"),
    // Depth: an empty list at 64, and 65 where the input ends.
    ("82 1E 63*91 90 0B 90", "ok 68 0 0 0 0 0 1"),
    ("82 1E 63*91", "refused 3 8 2"),
    ("82 1E 64*91", "refused 8 8 2"),
    ("82 0A 93 A1 61 63*06_92 06 90 0B 90", "ok 135 0 0 0 0 64 2"),
    ("82 0A 93 A1 61 63*06_92", "refused 3 6 131"),
    ("82 0A 93 A1 61 64*06_92", "refused 8 6 133"),
    // The edge of the surrogates in UTF-8.
    ("82 06 A3 ED 9F BF 0B 90", "ok 8 0 0 0 0 0 2"),
    ("82 06 A3 ED A0 80 0B 90", "refused 5 7 2"),
    // No `trace_id`, no `spans`, no `span_id`, no `start`; and a span that is whole in a chunk that is not.
    ("81 0B 91 81 04 90", "refused 3 2 3"),
    ("81 0B 91 81 06 C4 10 16*00", "refused 3 2 3"),
    ("81 0B 91 81 04 91 81 06 01", "refused 3 3 6"),
    ("81 0B 91 81 04 91 81 04 01", "refused 3 3 6"),
    ("81 0B 91 81 04 91 82 04 01 06 01", "refused 3 2 3"),
    // The largest start, and one more.
    (
        "81 0B 91 82 06 C4 10 16*00 04 91 82 04 01 06 CF 7F 7*FF",
        "ok 38 1 1 0 0 0 1",
    ),
    (
        "81 0B 91 82 06 C4 10 16*00 04 91 82 04 01 06 CF 80 7*00",
        "refused 3 3 29",
    ),
    // One with a record of every kind.
    (INPUT, "ok 221 1 1 1 1 7 20"),
];

// With pools of so many texts and so many chunks.
static IN_POOLS: [(&str, usize, usize, &str); 19] = [
    // The text pool has at least one entry, and no pool more than 65,535.
    ("81 0B 90", 0, 1, "refused 7 0 0"),
    ("81 0B 90", 1, 0, "ok 3 0 0 0 0 0 1"),
    ("81 0B 90", 65_535, 65_535, "ok 3 0 0 0 0 0 1"),
    ("81 0B 90", 65_536, 0, "refused 7 0 0"),
    ("81 0B 90", 1, 65_536, "refused 7 0 0"),
    // 16,777,216 bytes, and one more; that comes before the pools.
    ("81 0B 90 16777213*00", 1, 0, "ok 3 0 0 0 0 0 1"),
    ("81 0B 90 16777214*00", 1, 0, "refused 6 0 0"),
    ("81 0B 90 16777214*00", 0, 0, "refused 6 0 0"),
    // No entry for a skipped string, once the value was read whole.
    ("82 1E 92 A1 61 A1 62 0B 90", 2, 0, "refused 10 8 5"),
    ("82 1E 93 A1 61 A1 62", 2, 0, "refused 3 8 2"),
    // No entry for a text, also an empty one; what is not UTF-8 is found before.
    ("82 06 A1 61 0B 90", 2, 0, "ok 6 0 0 0 0 0 2"),
    ("82 06 A1 61 0B 90", 1, 0, "refused 10 7 2"),
    ("82 06 A0 0B 90", 1, 0, "refused 10 7 2"),
    ("82 06 A1 FF 0B 90", 1, 0, "refused 5 7 2"),
    // No free chunk, also where the input ends.
    (
        "81 0B 92 2*82_06_C4_10_00_00_00_00_00_00_00_00_00_00_00_00_00_00_00_00_04_90",
        1,
        2,
        "ok 47 2 0 0 0 0 1",
    ),
    (
        "81 0B 92 2*82_06_C4_10_00_00_00_00_00_00_00_00_00_00_00_00_00_00_00_00_04_90",
        1,
        1,
        "refused 9 2 25",
    ),
    ("81 0B 91", 1, 0, "refused 9 2 3"),
    // The chunk of an earlier occurrence keeps its record.
    (
        "82 2*0B_91_82_06_C4_10_00_00_00_00_00_00_00_00_00_00_00_00_00_00_00_00_04_90",
        1,
        2,
        "ok 49 2 0 0 0 0 1",
    ),
    (
        "82 2*0B_91_82_06_C4_10_00_00_00_00_00_00_00_00_00_00_00_00_00_00_00_00_04_90",
        1,
        1,
        "refused 9 2 27",
    ),
];

// With pools of so many texts and chunks, and of one record of each other kind: sizes that the program's memory has not.
fn answer_with(
    heap: Global,
    input: &[u8],
    texts: usize,
    chunks: usize,
) -> Result<Result<Summary, Refusal>, AllocError> {
    let mut texts = vec![in heap; Place::blank(); texts]?;
    let mut chunks = vec![in heap; TraceChunk::blank(); chunks]?;
    let mut spans = [Span::blank()];
    let mut links = [SpanLink::blank()];
    let mut events = [SpanEvent::blank()];
    let mut nodes = [Node::blank()];
    let mut table = StringTable::new(&mut texts);
    let mut records = Records::new(&mut chunks, &mut spans, &mut links, &mut events, &mut nodes);
    Ok(answer_in(input, &mut records, &mut table))
}

fn check_line(
    rt: &impl Abort,
    heap: Global,
    answer: Result<Summary, Refusal>,
    expected: &str,
    text: &str,
) -> Result<(), Fail> {
    let line = Line(answer).to_string(heap)?;
    assert_eq!(rt; line.as_str(), expected, "{}", text);
    Ok(())
}

#[test]
fn in_check(rt: HostRuntime) -> Result<(), Fail> {
    for (text, expected) in IN_CHECK.iter() {
        let input = bytes_of(rt.alloc(), text)?;
        check_line(&rt, rt.alloc(), answer_to(&input), expected, text)?;
    }
    Ok(())
}

#[test]
fn in_pools(rt: HostRuntime) -> Result<(), Fail> {
    for (text, texts, chunks, expected) in IN_POOLS.iter() {
        let input = bytes_of(rt.alloc(), text)?;
        let answer = answer_with(rt.alloc(), &input, *texts, *chunks)?;
        check_line(&rt, rt.alloc(), answer, expected, text)?;
    }
    Ok(())
}
