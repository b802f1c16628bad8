//! The byte that stands before the fields of each kind of entry.

pub(crate) const HOME: u8 = 1;

pub(crate) const SUBMITTED: u8 = 2;

pub(crate) const PLACED: u8 = 3;

pub(crate) const STARTED: u8 = 4;

pub(crate) const RECEIVING: u8 = 5;

pub(crate) const MARK: u8 = 6;

pub(crate) const RESULT: u8 = 7;

pub(crate) const ENDED: u8 = 8;

pub(crate) const CLOSED: u8 = 9;

pub(crate) const FORGOT: u8 = 10;

pub(crate) const DROPPED: u8 = 11;
