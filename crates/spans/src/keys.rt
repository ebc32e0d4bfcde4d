// Copyright 2026-Present Datadog, Inc. https://www.datadoghq.com/
// SPDX-License-Identifier: Apache-2.0
// Changed: carried over to Rattle.

// The keys of a span, of a link and of an event. Constants, since each is named once more only, where
// its field is read; an enum would name each a third time, to tell it by its number.
pub mod span_key {
    pub const SERVICE: u8 = 1;

    pub const NAME: u8 = 2;

    pub const RESOURCE: u8 = 3;

    pub const SPAN_ID: u8 = 4;

    pub const PARENT_ID: u8 = 5;

    pub const START: u8 = 6;

    pub const DURATION: u8 = 7;

    pub const ERROR: u8 = 8;

    pub const ATTRIBUTES: u8 = 9;

    pub const TYPE: u8 = 10;

    pub const SPAN_LINKS: u8 = 11;

    pub const SPAN_EVENTS: u8 = 12;

    pub const ENV: u8 = 13;

    pub const VERSION: u8 = 14;

    pub const COMPONENT: u8 = 15;

    pub const KIND: u8 = 16;
}

pub mod span_link_key {
    pub const TRACE_ID: u8 = 1;

    pub const SPAN_ID: u8 = 2;

    pub const ATTRIBUTES: u8 = 3;

    pub const TRACE_STATE: u8 = 4;

    pub const FLAGS: u8 = 5;
}

pub mod span_event_key {
    pub const TIME: u8 = 1;

    pub const NAME: u8 = 2;

    pub const ATTRIBUTES: u8 = 3;
}
