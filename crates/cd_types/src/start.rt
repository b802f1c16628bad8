use crate::{Hold, Label, NodeName, Retain};

/// A day on which a Process may start.
#[derive(Clone, Copy, Debug, PartialEq, Eq)]
pub enum Day {
    /// The day of the submission.
    Today,
    /// The day after it.
    Tomorrow,
    /// The next such day after it, 0 for Monday to 6 for Sunday.
    Weekday(u8),
    /// A year, a month and a day.
    Date(u16, u8, u8),
}

/// When a Process may start: a day, and a time of the day in seconds.
/// (Process Language Reference: STARTT of PROCESS.)
#[derive(Clone, Copy, Debug, PartialEq, Eq)]
pub struct Start {
    pub day: Day,
    pub seconds: u32,
}

/// What the PROCESS statement says. (Process Language Reference: the parameters of PROCESS.)
#[derive(Clone, Copy, Debug, PartialEq, Eq)]
pub struct Card {
    pub name: Label,
    /// The partner, where the statement names one.
    pub snode: Option<NodeName>,
    /// The priority, 1 to 15.
    pub prty: u8,
    /// The class, 1 to 255.
    pub class: u8,
    pub hold: Hold,
    pub retain: Retain,
    pub start: Option<Start>,
}
