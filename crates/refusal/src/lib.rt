// Copyright 2024-Present Datadog, Inc. https://www.datadoghq.com/
// SPDX-License-Identifier: Apache-2.0
// Changed: the first five kinds are the source's DecodeError; layers, places and the other kinds are added.

// Why a call refuses: a kind, the layer of the item that is refused, and a place.
#![tactic(auto)]

ghost use Rattle.std.specs.Prelude.{◌≡◌, Some};
ghost use Rattle.refusal.specs.Numbers.{kind_number, layer_number};
ghost use Rattle.refusal.specs.Runs.{refusal_at};
ghost use Rattle.refusal.specs.Text.{refusal_text};

use std::fmt;

#[derive(Clone, Copy, PartialEq, Eq, Debug)]
pub enum Kind {
    InvalidConversion = 1,
    InvalidType = 2,
    InvalidFormat = 3,
    IOError = 4,
    Utf8Error = 5,
    TooLong = 6,
    BadPool = 7,
    TooDeep = 8,
    PoolFull = 9,
    TextsFull = 10,
    BadRecord = 11,
    Full = 12,
    EndOfRoll = 13,
}

#[derive(Clone, Copy, PartialEq, Eq, Debug)]
pub enum Layer {
    NoLayer = 0,
    Payload = 1,
    Chunk = 2,
    Span = 3,
    Link = 4,
    Event = 5,
    Attribute = 6,
    Text = 7,
    Skipped = 8,
}

#[derive(Clone, Copy, PartialEq, Eq, Debug)]
pub struct Refusal {
    pub kind: Kind,
    pub layer: Layer,
    pub place: u64,
}

impl Kind {
    pub fn number(self) -> u8
        ensures { result ≡ kind_number self }
    {
        self as u8
    }
}

impl Layer {
    pub fn number(self) -> u8
        ensures { result ≡ layer_number self }
    {
        self as u8
    }
}

impl Refusal {
    pub fn new(kind: Kind, layer: Layer, place: usize) -> Refusal
        ensures { result ≡ refusal_at kind layer place }
    {
        Refusal {
            kind,
            layer,
            place: place as u64,
        }
    }
}

// By its numbers, with a space between two.
impl fmt::Display for Refusal {
    ghost output = { λ e. Some (refusal_text e) };

    fn fmt<W: fmt::Write>(&self, f: &mut fmt::Formatter<W>) -> fmt::Result {
        let kind = self.kind.number();
        let layer = self.layer.number();
        let place = self.place;
        write!(f, "{kind} {layer} {place}")
    }
}
