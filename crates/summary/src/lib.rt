// What a payload holds, by counts, and the line that is printed of it.
#![tactic(auto)]

ghost use Rattle.std.specs.Prelude.{◌≡◌, Some};
ghost use Rattle.span.specs.State.{held_of};
ghost use Rattle.decode.specs.State.{room_of};
ghost use Rattle.msgpack_decoder.specs.Whole.{decoded};
ghost use Rattle.summary.specs.Answers.{check_room, summary_of, answered, answer_of};
ghost use Rattle.summary.specs.Counted.{Counted};
ghost use Rattle.summary.specs.Text.{summary_text, line_text};

mod memory;

pub use memory::Memory;
use msgpack_decoder::{ReadPayload, from_slice};
use reading::read;
use refusal::Refusal;
use span::{Records, StringTable};
use std::fmt;

// How many bytes were read, and how many records of each kind and texts that gave.
#[derive(Clone, Copy, PartialEq, Eq, Debug)]
pub struct Summary {
    pub read: usize,
    pub chunks: usize,
    pub spans: usize,
    pub links: usize,
    pub events: usize,
    pub nodes: usize,
    pub texts: usize,
}

impl Summary {
    // Of what was read into these pools.
    pub fn of(found: &ReadPayload, records: &Records<'_>, table: &StringTable<'_>) -> Summary
        ensures { result ≡ summary_of found.now (held_of table.now records.now) }
    {
        Summary {
            read: found.read,
            chunks: records.chunks.len(),
            spans: records.spans.len(),
            links: records.links.len(),
            events: records.events.len(),
            nodes: records.nodes.len(),
            texts: table.len(),
        }
    }
}

// Its numbers, with a space between two.
impl fmt::Display for Summary {
    ghost output = { λ s. Some (summary_text s) };

    fn fmt<W: fmt::Write>(&self, f: &mut fmt::Formatter<W>) -> fmt::Result {
        let Summary {
            read,
            chunks,
            spans,
            links,
            events,
            nodes,
            texts,
        } = *self;
        write!(
            f,
            "{read} {chunks} {spans} {links} {events} {nodes} {texts}"
        )
    }
}

// An answer, as it is printed.
#[derive(Clone, Copy, PartialEq, Eq, Debug)]
pub struct Line(pub Result<Summary, Refusal>);

impl fmt::Display for Line {
    ghost output = { λ line. Some (line_text line.0) };

    fn fmt<W: fmt::Write>(&self, f: &mut fmt::Formatter<W>) -> fmt::Result {
        match self.0 {
            Ok(summary) => write!(f, "ok {summary}"),
            Err(refusal) => write!(f, "refused {refusal}"),
        }
    }
}

// What reading into these pools answers.
pub fn read_summary(
    input: &[u8],
    records: &mut Records<'_>,
    table: &mut StringTable<'_>,
) -> Result<Summary, Refusal>
    ensures { Counted input.now (room_of table.old records.old) result }
{
    let found = read(input, records, table)?;
    Ok(Summary::of(&found, records, table))
}

// The same, and as the definition of reading computes it: `from_slice` says that of every answer, `read` of refusals
// alone.
#[tactic(auto, using(crate::proofs::Answers::counted))]
pub fn answer_in(
    input: &[u8],
    records: &mut Records<'_>,
    table: &mut StringTable<'_>,
) -> Result<Summary, Refusal>
    ensures promise { Counted input.now (room_of table.old records.old) result }
    ensures answer { result ≡ answered (decoded input.now (room_of table.old records.old)) }
{
    let found = from_slice(input, records, table)?;
    Ok(Summary::of(&found, records, table))
}

// In the memory of the program check_payload.
pub fn answer_to(input: &[u8]) -> Result<Summary, Refusal>
    ensures promise { Counted input.now check_room result }
    ensures answer { result ≡ answer_of input.now }
{
    let mut memory = Memory::blank();
    let (mut records, mut table) = memory.lend();
    answer_in(input, &mut records, &mut table)
}
