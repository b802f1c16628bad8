/// What is wrong with a text. Its place is told beside it.
#[derive(Clone, Copy, Debug, PartialEq, Eq)]
pub enum FaultName {
    /// The text is longer than is taken.
    TooLong,
    /// A reference that has no value.
    Unresolved,
    /// A byte that no text may have, a `!` alone, or bytes that aren't UTF-8.
    BadByte,
    /// A quote that isn't closed.
    OpenQuote,
    /// A comment that isn't closed.
    OpenComment,
    /// A token that the grammar doesn't allow there, or the text's end.
    Unexpected,
    /// A number, interval, name or item outside its range.
    Range,
    /// More statements than a Process may have.
    TooMany,
    /// A second statement with one label.
    DoubleLabel,
    /// A label that no statement has, or no earlier action.
    NoLabel,
    /// A jump to the same or an earlier statement.
    Backward,
    /// A jump into the branch of an IF.
    IntoIf,
    /// An IF without its EIF.
    Unclosed,
    /// A copy whose two sides are one.
    SameSide,
    /// A retained Process that is started at its node's start, and at a moment too.
    RetainStart,
    /// A word that the command doesn't allow.
    Word,
    /// Input that ends within a command.
    Unfinished,
    /// A line that isn't one of a drill script.
    ScriptText,
}

/// Why a start names no moment.
#[derive(Clone, Copy, Debug, PartialEq, Eq)]
pub enum StartRefusal {
    /// The calendar has no such day.
    NoSuchDate,
    /// The year isn't one that is kept.
    OutOfRange,
}
