// Records in a lent slice, of which the first `used` are taken. What a pool holds is a list, and its room a number.
ghost use Rattle.std.specs.Prelude.{◌≡◌, ◌-◌, ◌≤◌, length, drop, replicate};

// A record that a pool can hold.
pub trait Record: Copy {
    ghost blank: { Self };

    // As it is before anything is read.
    fn blank() -> Self
        ensures { result ≡ blank };
}

// Behind what it holds all is blank. The memory is lent and never grows, so it is a slice and a number of those taken.
#[derive(Drop)]
pub struct Pool<'a, T: Record> {
    records: &'a mut [T],
    used: usize,
    ghost well: { used ≤ length records.now },
    ghost rest: { drop used records.now ≡ replicate (length records.now - used) T.blank },
}

#[tactic(auto, using(crate::proofs::Lists::more_blank, crate::proofs::Lists::all_of))]
fn make_blank<T: Record>(records: &mut [T])
    ensures { records.new ≡ replicate (length records.old) T.blank }
{
    for record in records.iter_mut() {
        *record = T::blank();
    }
}

impl<'a, T: Record> Pool<'a, T> {
    ghost use Rattle.std.specs.Prelude.{[], slice_index_or, slice_set};
    ghost use Rattle.span.specs.Held.{held, room, next_in, pushed};

    // A pool over memory that is lent, which it blanks.
    pub fn new(records: &'a mut [T]) -> Pool<'a, T>
        ensures held { held result ≡ [] }
        ensures room { room result ≡ length records.old }
    {
        make_blank(records);
        Pool { records, used: 0 }
    }

    pub fn len(&self) -> usize
        ensures { result ≡ length (held self.now) }
    {
        self.used
    }

    pub fn capacity(&self) -> usize
        ensures { result ≡ room self.now }
    {
        self.records.len()
    }

    // The records that are taken.
    pub fn as_slice(&self) -> &[T]
        ensures { result.now ≡ held self.now }
    {
        &self.records[..self.used]
    }

    // One record more: its index, or None where there is no room.
    #[tactic(auto, using(crate::proofs::Lists::next_is, crate::proofs::Lists::push_held))]
    pub fn push(&mut self, x: T) -> Option<usize>
        ensures answer { result ≡ next_in (room self.old) (held self.old) }
        ensures after { held self.new ≡ pushed (room self.old) x (held self.old) }
        ensures same { room self.new ≡ room self.old }
    {
        let index = self.used;
        if index == self.records.len() {
            return None;
        }
        self.records[index] = x;
        self.used += 1;
        Some(index)
    }

    // Writes x over the record at i; nothing where none is taken there.
    #[tactic(auto, using(crate::proofs::Lists::put_held))]
    pub fn put(&mut self, i: usize, x: T)
        ensures after { held self.new ≡ slice_set (held self.old) i x }
        ensures same { room self.new ≡ room self.old }
    {
        if i < self.used {
            self.records[i] = x;
        }
    }

    // The record at i, or d where none is taken there.
    pub fn get_or(&self, i: usize, d: T) -> T
        ensures { result ≡ slice_index_or (held self.now) i d }
    {
        self.as_slice().get(i).copied().unwrap_or(d)
    }

    // Blanks the records that are taken; those behind are blank already.
    #[tactic(auto, using(crate::proofs::Lists::both_blank))]
    pub fn clear(&mut self)
        ensures after { held self.new ≡ [] }
        ensures same { room self.new ≡ room self.old }
    {
        make_blank(&mut self.records[..self.used]);
        self.used = 0;
    }
}
