// Copyright 2024-Present Datadog, Inc. https://www.datadoghq.com/
// SPDX-License-Identifier: Apache-2.0
// Changed: the bytes stay whole, and an offset moves in place of their front.

// What stands at the place of a buffer.
ghost use Rattle.std.specs.Prelude.{◌≡◌, length, min, Some, Option, IfOk};
ghost use Rattle.msgpack.specs.declared.Item.{Item};
ghost use Rattle.msgpack.specs.Items.{item_from, Within};
ghost use Rattle.std.specs.Option.{option_map};
ghost use Rattle.decode.specs.State.{Ran, bytes_of};
ghost use Rattle.decode.specs.Binary.{slice_at, advanced};
ghost use Rattle.decode.specs.Items.{item_of};
ghost use Rattle.decode.specs.Texts.{marker_at};

use crate::Buffer;
use msgpack::{Item, item_at};
use refusal::{Kind, Layer, Refusal};

impl<'a> Buffer<'a> {
    pub fn new(bytes: &'a [u8]) -> Buffer<'a>
        ensures bytes { bytes_of result ≡ bytes.now }
        ensures at { result.at ≡ 0 }
    {
        Buffer { bytes, at: 0 }
    }

    pub fn offset(&self) -> usize
        ensures { result ≡ self.now.at }
    {
        self.at
    }

    // All the bytes.
    pub fn bytes(&self) -> &'a [u8]
        ensures { result.now ≡ bytes_of self.now }
    {
        self.bytes
    }

    // The first byte of the next item.
    pub fn marker(&self) -> Option<u8>
        ensures { result ≡ marker_at (bytes_of self.now) self.now.at }
    {
        self.bytes.get(self.at).copied()
    }

    // The item at the present place, and the offset behind its head; the buffer does not move.
    pub fn item(&self) -> Option<(Item, usize)>
        ensures is { result ≡ item_from (bytes_of self.now) self.now.at }
        ensures within { Within self.now.at (bytes_of self.now) result }
    {
        item_at(self.bytes, self.at)
    }

    // What `pick` makes of the item here, and the buffer moves over its head; InvalidFormat, and it stays, if nothing.
    // That the bytes stay is said apart: `ran` speaks of a `pick` that is a function of the item.
    pub(crate) fn take<T, F: FnOnce(Item) -> Option<T>>(
        &mut self,
        layer: Layer,
        pick: F,
    ) -> Result<T, Refusal>
        requires { F.IsAlwaysCallable pick }
        ensures ran { (f : Item → Option T) → ((i : Item) (x : Option T) → F.post pick i x → x ≡ f i) → Ran (λ input. item_of f input layer) self.old self.new result }
        ensures picked { IfOk result (λ x. (i : Item) × F.post pick i (Some x)) }
        ensures kept { bytes_of self.new ≡ bytes_of self.old }
    {
        if let Some((item, end)) = self.item() {
            if let Some(x) = pick(item) {
                self.at = end;
                return Ok(x);
            }
        }
        Err(Refusal::new(Kind::InvalidFormat, layer, self.at))
    }

    // This and the next answer no refusal, so they say apart from `Ran` that the bytes stay.
    // Goes back, or on, to an offset within the bytes; to their end, where that lies before it.
    pub fn seek(&mut self, at: usize)
        ensures at { self.new.at ≡ min at (length (bytes_of self.old)) }
        ensures kept { bytes_of self.new ≡ bytes_of self.old }
    {
        self.at = at.min(self.bytes.len());
    }

    // The next n bytes, which the buffer moves over; None, and it stays, where fewer are left.
    pub fn try_slice_and_advance(&mut self, n: usize) -> Option<&'a [u8]>
        ensures slice { option_map (λ x. x.now) result ≡ slice_at (bytes_of self.old) self.old.at n }
        ensures at { self.new.at ≡ advanced (bytes_of self.old) self.old.at n }
        ensures kept { bytes_of self.new ≡ bytes_of self.old }
    {
        let slice = self.bytes[self.at..].get(..n)?;
        self.at += n;
        Some(slice)
    }
}
