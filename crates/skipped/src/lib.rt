// Copyright 2026-Present Datadog, Inc. https://www.datadoghq.com/
// SPDX-License-Identifier: Apache-2.0
// Changed: the value is walked twice over the bytes, in place of a tree that is built and walked.

// A value under an unknown key: it is stepped over, and its strings take their numbers.
#![tactic(auto)]

ghost use Rattle.std.specs.Prelude.{◌≡◌};
ghost use Rattle.refusal.specs.Runs.{refusal_at, repeat};
ghost use Rattle.refusal.specs.declared.Layer.TheVariants.{Skipped};
ghost use Rattle.decode.specs.State.{RanTexts};
ghost use Rattle.skipped.specs.Skip.{body, skip_string, level, skip, skipped};
ghost use Rattle.skipped.specs.State.{Did};

use decode::Buffer;
use msgpack::Item;
use refusal::{Kind, Layer, Refusal};
use span::{Place, StringTable};
use utf8::is_utf8;

// The value itself has depth 1.
const LEVELS: usize = 64;

// Steps over the value that begins at `start`. NOTING: whether the strings in it take their numbers.
#[derive(Drop)]
struct Skipper<'b, 'i, 's, 't, const NOTING: bool> {
    buf: &'b mut Buffer<'i>,
    table: &'s mut StringTable<'t>,
    start: usize,
}

impl<const NOTING: bool> Skipper<'_, '_, '_, '_, NOTING> {
    // The value is refused where it begins.
    fn refused(&self, kind: Kind) -> Refusal
        ensures { result ≡ refusal_at kind Skipped self.now.start }
    {
        Refusal::new(kind, Layer::Skipped, self.start)
    }

    fn skip_bytes(&mut self, n: u32) -> Result<(), Refusal>
        ensures { Did (λ input most noting start. body input start n) self.old self.new result }
    {
        match self.buf.try_slice_and_advance(n as usize) {
            Some(_) => Ok(()),
            None => Err(self.refused(Kind::InvalidFormat)),
        }
    }

    // A string of n bytes, whose head begins at `at`. One that is noted takes the next number, if it is text.
    fn skip_string(&mut self, at: usize, n: u32) -> Result<(), Refusal>
        ensures { Did (λ input most noting start. skip_string input most noting start at n) self.old self.new result }
    {
        let offset = self.buf.offset();
        let length = n as usize;
        let Some(contents) = self.buf.try_slice_and_advance(length) else {
            return Err(self.refused(Kind::InvalidFormat));
        };
        if NOTING && is_utf8(contents) {
            let full = Refusal::new(Kind::TextsFull, Layer::Skipped, at);
            self.table.record(Place { offset, length }).ok_or(full)?;
        }
        Ok(())
    }

    // A value with at most `depth` levels.
    #[cycle(skip)]
    #[tactic(auto, using(crate::proofs::Levels::skip_at, crate::proofs::Levels::skip_none))]
    fn skip_value(&mut self, depth: usize) -> Result<(), Refusal>
        ensures { Did (λ input most noting start. skip input most noting start depth tt) self.old self.new result }
    {
        if depth == 0 {
            return Err(self.refused(Kind::TooDeep));
        }
        let at = self.buf.offset();
        let Some((item, end)) = self.buf.item() else {
            return Err(self.refused(Kind::InvalidFormat));
        };
        self.buf.seek(end);
        match item {
            Item::Str(n) => self.skip_string(at, n),
            Item::Bin(n) | Item::Ext(n) => self.skip_bytes(n),
            Item::Array(n) => self.skip_values(n as u64, depth - 1),
            Item::Map(n) => self.skip_values(2 * n as u64, depth - 1),
            _ => Ok(()),
        }
    }

    #[cycle(skip)]
    #[tactic(auto, using(crate::proofs::Levels::turn_more, crate::proofs::Levels::turn_refused))]
    fn skip_values(&mut self, count: u64, depth: usize) -> Result<(), Refusal>
        ensures { Did (λ input most noting start. repeat (skip input most noting start depth) count tt) self.old self.new result }
    {
        for _ in 0..count {
            self.skip_value(depth)?;
        }
        Ok(())
    }
}

// Steps over the value: it is read whole first, and then its strings take their numbers. Buffer and table are two
// parameters, as in the readers of texts.
pub fn skip_unknown_value(buf: &mut Buffer<'_>, table: &mut StringTable<'_>) -> Result<(), Refusal>
    ensures { RanTexts skipped buf.old buf.new table.old table.new result }
{
    let start = buf.offset();
    Skipper::<false> { buf, table, start }.skip_value(LEVELS)?;
    buf.seek(start);
    Skipper::<true> { buf, table, start }.skip_value(LEVELS)
}
