// Copyright 2026-Present Datadog, Inc. https://www.datadoghq.com/
// SPDX-License-Identifier: Apache-2.0
// Changed: the table is a pool over lent memory, so recording can refuse.

// The table of texts.
ghost use Rattle.std.specs.Prelude.{◌≡◌, [], length};
ghost use Rattle.span.specs.Held.{next_in, pushed};
ghost use Rattle.span.specs.State.{texts_of, most, numbered};

use crate::{Place, StringTable};

impl StringTable<'_> {
    // Records a text, which takes the next number; None where the pool has no entry left.
    pub fn record(&mut self, text: Place) -> Option<usize>
        ensures answer { result ≡ next_in (most self.old) (texts_of self.old) }
        ensures after { texts_of self.new ≡ pushed (most self.old) text (texts_of self.old) }
        ensures same { most self.new ≡ most self.old }
    {
        self.texts.push(text)
    }

    // The text that has the number.
    pub fn resolve(&self, id: u64) -> Option<Place>
        ensures { result ≡ numbered id (texts_of self.now) }
    {
        self.texts.as_slice().get(id as usize).copied()
    }

    pub fn len(&self) -> usize
        ensures { result ≡ length (texts_of self.now) }
    {
        self.texts.len()
    }

    pub fn capacity(&self) -> usize
        ensures { result ≡ most self.now }
    {
        self.texts.capacity()
    }

    pub fn clear(&mut self)
        ensures after { texts_of self.new ≡ [] }
        ensures same { most self.new ≡ most self.old }
    {
        self.texts.clear();
    }
}
