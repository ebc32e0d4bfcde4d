// Copyright 2026-Present Datadog, Inc. https://www.datadoghq.com/
// SPDX-License-Identifier: Apache-2.0
// Changed: the record goes into a pool, and its texts are places.

// The text fields of a span.
ghost use Rattle.std.specs.Prelude.{◌≡◌, is_some};
ghost use Rattle.std.specs.Borrow.{sem};
ghost use Rattle.spans.specs.Span.{is_text};
ghost use Rattle.spans.specs.Lending.{LendsText};

use crate::keys::span_key;
use span::{Place, Span};

// The text field of the key, if it has one.
pub fn text_field(span: &mut Span, key: u8) -> Option<&mut Place>
    ensures* lends { sem 𝓛 (LendsText span.entry key result) }
    ensures has { is_some result ≡ is_text key }
{
    match key {
        span_key::SERVICE => Some(&mut span.service),
        span_key::NAME => Some(&mut span.name),
        span_key::RESOURCE => Some(&mut span.resource),
        span_key::TYPE => Some(&mut span.span_type),
        span_key::ENV => Some(&mut span.env),
        span_key::VERSION => Some(&mut span.version),
        span_key::COMPONENT => Some(&mut span.component),
        _ => None,
    }
}
