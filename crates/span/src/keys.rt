// Copyright 2026-Present Datadog, Inc. https://www.datadoghq.com/
// SPDX-License-Identifier: Apache-2.0
// Changed: carried over to Rattle; the type numbers are an enum.

// The types of attribute values, by their numbers.
ghost use Rattle.span.specs.Keys.{Decodes};

#[derive(Clone, Copy, PartialEq, Eq, Debug)]
pub enum AnyValueKey {
    String = 1,
    Bool = 2,
    Double = 3,
    Int64 = 4,
    Bytes = 5,
    Array = 6,
    KeyValueList = 7,
}

// A number that no type of values has.
#[derive(Clone, Copy, PartialEq, Eq, Debug)]
pub struct UnknownKey;

impl TryFrom<u8> for AnyValueKey {
    type Error = UnknownKey;

    ghost try_from_gives = { Decodes };

    fn try_from(number: u8) -> Result<AnyValueKey, UnknownKey> {
        match number {
            1 => Ok(AnyValueKey::String),
            2 => Ok(AnyValueKey::Bool),
            3 => Ok(AnyValueKey::Double),
            4 => Ok(AnyValueKey::Int64),
            5 => Ok(AnyValueKey::Bytes),
            6 => Ok(AnyValueKey::Array),
            7 => Ok(AnyValueKey::KeyValueList),
            _ => Err(UnknownKey),
        }
    }
}
