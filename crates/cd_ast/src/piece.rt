/// What a piece of a text is. A text is cut into pieces from its first byte to its last.
#[derive(Clone, Copy, Debug, PartialEq, Eq)]
pub enum PieceKind {
    /// A line feed outside quotes and comments. The text's start counts as one.
    LineEnd,
    /// Another blank: a space, a tab or a carriage return.
    Blank,
    /// A comment between `/*` and `*/`, or a line that begins with `*`, up to its line feed.
    Comment,
    /// A `-` alone at a line's end, which says that the statement goes on.
    Dash,
    /// A word.
    Word,
    /// Quoted text with its quotes.
    Quoted,
    /// A sign.
    Sign,
    /// A `!` that is no sign.
    Stray,
    /// A quote that isn't closed, with all that follows.
    CutQuote,
    /// A comment that isn't closed, with all that follows.
    CutComment,
}
