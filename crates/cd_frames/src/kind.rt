//! The byte that stands before the fields of each kind of frame.

pub(crate) const HELLO: u8 = 1;

pub(crate) const WELCOME: u8 = 2;

pub(crate) const REJECT: u8 = 3;

pub(crate) const STEP_COPY_TO: u8 = 4;

pub(crate) const STEP_COPY_FROM: u8 = 5;

pub(crate) const STEP_TASK: u8 = 6;

pub(crate) const STEP_SUBMIT: u8 = 7;

pub(crate) const READY: u8 = 8;

pub(crate) const LENGTH: u8 = 9;

pub(crate) const DATA: u8 = 10;

pub(crate) const ACK: u8 = 11;

pub(crate) const END: u8 = 12;

pub(crate) const RESULT: u8 = 13;

pub(crate) const ABORT: u8 = 14;

pub(crate) const FORGET: u8 = 15;

pub(crate) const BYE: u8 = 16;
