// Copyright 2026-Present Datadog, Inc. https://www.datadoghq.com/
// SPDX-License-Identifier: Apache-2.0
// Changed: carried over to Rattle; the two strides are an enum's.

// What an array of values holds.
ghost use Rattle.std.specs.Prelude.{◌≡◌};
ghost use Rattle.attributes.specs.Element.{stride_of};

// The entry of a map, which has a key, or the member of a list, which has none.
#[derive(Clone, Copy, PartialEq, Eq, Debug)]
pub enum Element {
    Entry,
    Member,
}

impl Element {
    // How many items it takes: its key, if it has one, its type and its value.
    pub fn stride(self) -> u32
        ensures { result ≡ stride_of self }
    {
        match self {
            Element::Entry => 3,
            Element::Member => 2,
        }
    }
}
