// Copyright 2026-Present Datadog, Inc. https://www.datadoghq.com/
// SPDX-License-Identifier: Apache-2.0
// Changed: texts are places.

// The text fields of a payload.
ghost use Rattle.std.specs.Prelude.{◌≡◌, is_some};
ghost use Rattle.std.specs.Borrow.{sem};
ghost use Rattle.msgpack_decoder.specs.Payload.{is_text};
ghost use Rattle.msgpack_decoder.specs.Lending.{LendsText};

use crate::keys::trace_key;
use span::{Place, TracerPayload};

// The text field of the key, if it has one.
pub fn text_field(payload: &mut TracerPayload, key: u8) -> Option<&mut Place>
    ensures* lends { sem 𝓛 (LendsText payload.entry key result) }
    ensures has { is_some result ≡ is_text key }
{
    match key {
        trace_key::CONTAINER_ID => Some(&mut payload.container_id),
        trace_key::LANGUAGE_NAME => Some(&mut payload.language_name),
        trace_key::LANGUAGE_VERSION => Some(&mut payload.language_version),
        trace_key::TRACER_VERSION => Some(&mut payload.tracer_version),
        trace_key::RUNTIME_ID => Some(&mut payload.runtime_id),
        trace_key::ENV_REF => Some(&mut payload.env),
        trace_key::HOSTNAME_REF => Some(&mut payload.hostname),
        trace_key::APP_VERSION_REF => Some(&mut payload.app_version),
        _ => None,
    }
}
