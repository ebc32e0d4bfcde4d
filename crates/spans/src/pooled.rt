// Records of pools.
ghost use Rattle.std.specs.Prelude.{◌≡◌, ℕ, length, slice_set};
ghost use Rattle.refusal.specs.Runs.{repeat};
ghost use Rattle.refusal.specs.declared.Layer.{Layer};
ghost use Rattle.span.specs.Held.{next_in, pushed};
ghost use Rattle.span.specs.State.{Pools, pools_of, rooms_of};
ghost use Rattle.decode.specs.Reader.{State, Read, Part};
ghost use Rattle.decode.specs.State.{Did};
ghost use Rattle.spans.specs.Records.{record_in, records_in};

use crate::{Fields, read_fields};
use decode::{Decoder, read_array_len, read_map_len};
use refusal::{Kind, Layer, Refusal};
use span::{Range, Record, Records};

// A record of one of the pools, while its fields are being read. `count`, `push` and `put` are one line in each impl: a
// method that lends the pool would need a clause on every impl's own layout, in the logic's words for a borrow.
pub trait Pooled: Fields + Copy {
    type Record: Record;

    ghost layer: { Layer };

    ghost part: { Part Self.Record };

    ghost first: { Self };

    ghost finish: { ℕ → Self → Read Self.Record };

    fn layer() -> Layer
        ensures { result ≡ layer };

    // Before any field is read.
    fn first() -> Self
        ensures { result ≡ first };

    // The record, if what must be there is; `at` is the place of its header.
    fn finish(self, at: usize) -> Result<Self::Record, Refusal>
        ensures { (s : State) → (result, s) ≡ finish at self s };

    // How many the pool holds.
    fn count(records: &Records) -> usize
        ensures { result ≡ length (part.of (pools_of records.now)) };

    // One record more, blank as yet: its index, or None where there is no room.
    fn push(records: &mut Records) -> Option<usize>
        ensures index { result ≡ next_in (part.room (rooms_of records.old)) (part.of (pools_of records.old)) }
        ensures after { pools_of records.new ≡ part.with (pushed (part.room (rooms_of records.old)) part.blank (part.of (pools_of records.old))) (pools_of records.old) }
        ensures rooms { rooms_of records.new ≡ rooms_of records.old };

    // Writes x over the record at the index.
    fn put(records: &mut Records, index: usize, x: Self::Record)
        ensures after { pools_of records.new ≡ part.with (slice_set (part.of (pools_of records.old)) index x) (pools_of records.old) }
        ensures rooms { rooms_of records.new ≡ rooms_of records.old };

    // A pool that is given what it holds stays as it is.
    ghost same: { (p : Pools) → part.with (part.of p) p ≡ p };
}

// A record is taken before its header is read, and written when all its fields are.
pub fn read_record<T: Pooled>(decoder: &mut Decoder) -> Result<(), Refusal>
    ensures { Did (λ input room. record_in input room T.layer T.part (T.field input room) T.first T.finish tt) decoder.old decoder.new result }
{
    let at = decoder.offset();
    let Some(index) = T::push(decoder.records) else {
        return Err(Refusal::new(Kind::PoolFull, T::layer(), at));
    };
    let count = read_map_len(decoder.buf, T::layer())?;
    let mut draft = T::first();
    read_fields(decoder, &mut draft, count)?;
    let x = draft.finish(at)?;
    T::put(decoder.records, index, x);
    Ok(())
}

fn repeat_record<T: Pooled>(decoder: &mut Decoder, count: u32) -> Result<(), Refusal>
    ensures { Did (λ input room. repeat (record_in input room T.layer T.part (T.field input room) T.first T.finish) count tt) decoder.old decoder.new result }
{
    for _ in 0..count {
        read_record::<T>(decoder)?;
    }
    Ok(())
}

// An array of them, whose header belongs to the layer above: the range that they take.
pub fn read_records<T: Pooled>(decoder: &mut Decoder, layer: Layer) -> Result<Range, Refusal>
    ensures { Did (λ input room. records_in input layer T.part (record_in input room T.layer T.part (T.field input room) T.first T.finish)) decoder.old decoder.new result }
{
    let first = T::count(decoder.records);
    let count = read_array_len(decoder.buf, layer)?;
    repeat_record::<T>(decoder, count)?;
    Ok(Range::new(first, count as usize))
}
