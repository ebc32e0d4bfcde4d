// Copyright 2026-Present Datadog, Inc. https://www.datadoghq.com/
// SPDX-License-Identifier: Apache-2.0
// Changed: texts and binaries are parts of the bytes, lists and maps are ranges of nodes, and a double is its bits.

use span::Range;

// The bytes that places lie in.
#[derive(Clone, Copy, PartialEq, Eq, Debug)]
pub struct Source<'a> {
    pub bytes: &'a [u8],
}

// A node's value, by its type.
#[derive(Clone, Copy, PartialEq, Eq, Debug)]
pub enum AttributeValue<'a> {
    String(&'a [u8]),
    Bool(bool),
    Float(u64),
    Int(i64),
    Bytes(&'a [u8]),
    List(Range),
    KeyValue(Range),
}
