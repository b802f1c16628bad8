use crate::Lent;

/// A word of the language, in any case, or another word.
#[derive(Clone, Copy, Debug, PartialEq, Eq)]
pub enum Key {
    Process,
    Copy,
    Run,
    Task,
    Job,
    Submit,
    If,
    Then,
    Else,
    Eif,
    Goto,
    Exit,
    Pend,
    Pnode,
    Snode,
    From,
    To,
    Compress,
    Extended,
    Prty,
    Class,
    Hold,
    Retain,
    Startt,
    Pacct,
    Sacct,
    Notify,
    Pnodeid,
    Snodeid,
    Ckpt,
    Primechar,
    File,
    Dsn,
    Sysopts,
    Disp,
    Restart,
    Pgm,
    Subnode,
    /// A word that is none of these.
    Other,
}

/// A sign.
#[derive(Clone, Copy, Debug, PartialEq, Eq)]
pub enum Sign {
    /// `(`
    Open,
    /// `)`
    Close,
    /// `=`
    Equals,
    /// `==`
    Same,
    /// `,`
    Comma,
    /// `;`
    Semicolon,
    /// `<`
    Less,
    /// `>`
    Greater,
    /// `<=`
    AtMost,
    /// `>=`
    AtLeast,
    /// `<>` or `!=`
    Unequal,
}

/// A token as the grammar sees it, with the place of its first byte.
#[derive(Drop)]
pub enum Token<'a> {
    /// A word, and its bytes.
    Word(u32, Key, Lent<'a>),
    /// A quoted text, and the bytes between its quotes.
    Quoted(u32, Lent<'a>),
    /// A sign.
    Mark(u32, Sign),
}
