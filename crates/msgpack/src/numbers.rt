// Numbers in one, two, four and eight bytes, most significant first, and what follows them. Each names its bytes by a
// slice pattern, which has no size that a parameter could give.
ghost use Rattle.std.specs.Prelude.{◌≡◌, ℕ};
ghost use Rattle.std.specs.Option.{option_map};
ghost use Rattle.msgpack.specs.Items.{be, Tells};

use crate::Item;

// A number of a fixed size, as it stands in bytes; `value` says which number it is where the type is not known.
pub(crate) trait BigEndian: Sized {
    ghost bytes: { ℕ };

    ghost value: { Self → ℕ };

    // The number that the bytes begin with, and what follows it.
    fn split(s: &[u8]) -> Option<(Self, &[u8])>
        ensures { option_map (λ p. (value p.0, p.1.now)) result ≡ be bytes 0 s.now };
}

impl BigEndian for u8 {
    ghost bytes = { 1 };

    ghost value = { λ n. n };

    fn split(s: &[u8]) -> Option<(u8, &[u8])> {
        let [a, rest @ ..] = s else {
            return None;
        };
        Some((*a, rest))
    }
}

impl BigEndian for u16 {
    ghost bytes = { 2 };

    ghost value = { λ n. n };

    fn split(s: &[u8]) -> Option<(u16, &[u8])> {
        let [a, b, rest @ ..] = s else {
            return None;
        };
        Some((u16::from_be_bytes([*a, *b]), rest))
    }
}

impl BigEndian for u32 {
    ghost bytes = { 4 };

    ghost value = { λ n. n };

    fn split(s: &[u8]) -> Option<(u32, &[u8])> {
        let [a, b, c, d, rest @ ..] = s else {
            return None;
        };
        Some((u32::from_be_bytes([*a, *b, *c, *d]), rest))
    }
}

impl BigEndian for u64 {
    ghost bytes = { 8 };

    ghost value = { λ n. n };

    fn split(s: &[u8]) -> Option<(u64, &[u8])> {
        let [a, b, c, d, e, f, g, h, rest @ ..] = s else {
            return None;
        };
        Some((u64::from_be_bytes([*a, *b, *c, *d, *e, *f, *g, *h]), rest))
    }
}

// The item that a number tells, and what follows the number.
pub(crate) fn told<T: BigEndian, F: FnOnce(T) -> Item>(s: &[u8], item: F) -> Option<(Item, &[u8])>
    requires { F.IsAlwaysCallable item }
    ensures { Tells (λ n i. (t : T) × (T.value t ≡ n) × F.post item t i) (be T.bytes 0 s.now) result }
{
    let (n, rest) = T::split(s)?;
    Some((item(n), rest))
}
