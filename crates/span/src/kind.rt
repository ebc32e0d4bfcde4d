// Copyright 2026-Present Datadog, Inc. https://www.datadoghq.com/
// SPDX-License-Identifier: Apache-2.0
// Changed: carried over to Rattle, with a contract.

// The kinds of spans by their numbers.
ghost use Rattle.std.specs.Prelude.{◌≡◌};
ghost use Rattle.span.specs.Blank.{span_kind_of};

use crate::SpanKind;

// Any number but 2 to 5 means Internal.
impl From<u32> for SpanKind {
    ghost from_gives = { λ kind result. result ≡ span_kind_of kind };

    fn from(kind: u32) -> SpanKind {
        match kind {
            2 => SpanKind::Server,
            3 => SpanKind::Client,
            4 => SpanKind::Producer,
            5 => SpanKind::Consumer,
            _ => SpanKind::Internal,
        }
    }
}
