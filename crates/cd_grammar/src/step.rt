use crate::Given;
use cd_types::Label;

/// A statement's label with its place, and the place of its keyword.
#[derive(Clone, Copy, Debug, PartialEq, Eq)]
pub struct Begun {
    pub label: Option<(u32, Label)>,
    pub at: u32,
}

/// What a RUN runs.
#[derive(Clone, Copy, Debug, PartialEq, Eq)]
pub enum Work {
    Task,
    Job,
}

/// An end of a copy.
#[derive(Clone, Copy, Debug, PartialEq, Eq)]
pub enum End {
    From,
    To,
}

/// What a COPY has been given so far.
#[derive(Drop)]
pub struct CopyGiven<'a> {
    pub from: Option<Given<'a>>,
    pub to: Option<Given<'a>>,
    pub compress: bool,
    /// Its other parameters.
    pub others: Given<'a>,
}

/// Where a parameter may stand, and what was given there so far.
#[derive(Drop)]
pub enum Step<'a> {
    /// In the PROCESS statement.
    Head(Given<'a>),
    /// Behind a statement that is stored already.
    Between,
    Copy(Begun, CopyGiven<'a>),
    /// In the parentheses of an end of a COPY.
    Group(Begun, CopyGiven<'a>, End, Given<'a>),
    Run(Begun, Work, Given<'a>),
    /// In parentheses of a RUN.
    RunGroup(Begun, Work, Given<'a>),
    Submit(Begun, Given<'a>),
}

/// A time as it is written, in numbers of two digits.
#[derive(Clone, Copy, Debug, PartialEq, Eq)]
pub struct Clock {
    pub hours: u8,
    pub minutes: u8,
    pub seconds: u8,
}
