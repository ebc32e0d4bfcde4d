// Copyright 2026-Present Datadog, Inc. https://www.datadoghq.com/
// SPDX-License-Identifier: Apache-2.0
// Changed: carried over to Rattle.

// The keys of a payload and of a chunk. Constants, since each is named once more only, where
// its field is read; an enum would name each a third time, to tell it by its number.
pub mod trace_key {
    pub const CONTAINER_ID: u8 = 2;

    pub const LANGUAGE_NAME: u8 = 3;

    pub const LANGUAGE_VERSION: u8 = 4;

    pub const TRACER_VERSION: u8 = 5;

    pub const RUNTIME_ID: u8 = 6;

    pub const ENV_REF: u8 = 7;

    pub const HOSTNAME_REF: u8 = 8;

    pub const APP_VERSION_REF: u8 = 9;

    pub const ATTRIBUTES: u8 = 10;

    pub const CHUNKS: u8 = 11;
}

pub mod chunk_key {
    pub const PRIORITY: u8 = 1;

    pub const ORIGIN: u8 = 2;

    pub const ATTRIBUTES: u8 = 3;

    pub const SPANS: u8 = 4;

    pub const DROPPED_TRACE: u8 = 5;

    pub const TRACE_ID: u8 = 6;

    pub const SAMPLING_MECHANISM: u8 = 7;
}
