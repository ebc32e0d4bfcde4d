// Maps of fields.
ghost use Rattle.std.specs.Prelude.{ℕ, List};
ghost use Rattle.refusal.specs.Runs.{filled, repeat};
ghost use Rattle.decode.specs.Reader.{Room, Read};
ghost use Rattle.decode.specs.State.{Did};

use decode::Decoder;
use refusal::Refusal;

// What is read from a map, field by field.
pub trait Fields {
    ghost field: { List ℕ → Room → Self → Read Self };

    // One field: its key, and what that key holds. A key that comes again replaces what it had. Each impl reads its own
    // key and steps over what it doesn't know: to share that, a third answer would have to say that a key is unknown.
    fn read_field(&mut self, decoder: &mut Decoder) -> Result<(), Refusal>
        ensures { Did (λ input room. field input room self.old) decoder.old decoder.new (filled result self.new) };
}

// So many fields, which are put into what is there.
pub fn read_fields<T: Fields>(
    decoder: &mut Decoder,
    fields: &mut T,
    count: u32,
) -> Result<(), Refusal>
    ensures { Did (λ input room. repeat (T.field input room) count fields.old) decoder.old decoder.new (filled result fields.new) }
{
    for _ in 0..count {
        fields.read_field(decoder)?;
    }
    Ok(())
}
