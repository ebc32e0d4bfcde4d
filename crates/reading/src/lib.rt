// Reading a payload: what is accepted and what is answered, in the words of the format.
#![tactic(auto)]

ghost use Rattle.std.specs.Prelude.{◌≡◌};
ghost use Rattle.span.specs.State.{most, rooms_of, held_of, memory_of, blank_behind};
ghost use Rattle.decode.specs.State.{room_of};
ghost use Rattle.meaning.specs.Promise.{Decodes};
ghost use Rattle.reading.specs.Refusals.{Which};

use msgpack_decoder::{ReadPayload, from_slice};
use refusal::Refusal;
use span::{Records, StringTable};

// Reads the payload that the input begins with.
#[tactic(auto, using(meaning::proofs::Decodes::decodes))]
pub fn read(
    input: &[u8],
    records: &mut Records<'_>,
    table: &mut StringTable<'_>,
) -> Result<ReadPayload, Refusal>
    ensures promise { Decodes input.now (room_of table.old records.old) result (held_of table.new records.new) }
    ensures refusal { Which input.now (room_of table.old records.old) result }
    ensures memory { memory_of table.new records.new ≡ blank_behind (most table.new) (rooms_of records.new) (held_of table.new records.new) }
    ensures room { room_of table.new records.new ≡ room_of table.old records.old }
{
    from_slice(input, records, table)
}
