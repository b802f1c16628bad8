//! The commands of the input: where each begins and ends.
ghost use Rattle.std.specs.Prelude.{◌≡◌, ◌≤◌, ◌<◌, ◌++◌, ◌∷◌, [], length, IfOk, OnErr, vec_len};
ghost use Rattle.cd_input.specs.Input.{is_blank, open_after, spot_after, is_open, stays_between};

/// Where a reader of a text stands.
#[derive(Clone, Copy, Debug, PartialEq, Eq)]
pub enum Spot {
    /// Outside quotes and comments, at a line's start.
    LineStart,
    /// Outside quotes and comments, elsewhere.
    Inside,
    /// There, behind a `/` that may begin a comment.
    Slash,
    /// In quoted text, which ends at the next such byte.
    Quoted(u8),
    /// In a comment that ends with its line.
    Line,
    /// In a comment that ends at `*/`.
    Comment,
    /// There, behind a `*`.
    Star,
}

pub fn is_blank(byte: u8) -> bool
    ensures { result ≡ is_blank byte }
{
    matches!(byte, b' ' | b'\t' | b'\n' | b'\r')
}

/// Where a byte leads outside quotes and comments.
fn open_after(start: bool, byte: u8) -> Spot
    ensures { result ≡ open_after start byte }
{
    match byte {
        b'\n' => Spot::LineStart,
        b'*' if start => Spot::Line,
        b'/' => Spot::Slash,
        b'"' | b'\'' => Spot::Quoted(byte),
        _ => Spot::Inside,
    }
}

impl Spot {
    /// Where one byte more leads.
    pub fn after(self, byte: u8) -> Spot
        ensures { result ≡ spot_after self byte }
    {
        match self {
            Spot::LineStart => open_after(true, byte),
            Spot::Inside => open_after(false, byte),
            Spot::Slash if byte == b'*' => Spot::Comment,
            Spot::Slash => open_after(false, byte),
            Spot::Quoted(quote) if byte == quote => Spot::Inside,
            Spot::Quoted(quote) => Spot::Quoted(quote),
            Spot::Line if byte == b'\n' => Spot::LineStart,
            Spot::Line => Spot::Line,
            Spot::Comment if byte == b'*' => Spot::Star,
            Spot::Comment => Spot::Comment,
            Spot::Star if byte == b'/' => Spot::Inside,
            Spot::Star if byte == b'*' => Spot::Star,
            Spot::Star => Spot::Comment,
        }
    }

    /// A `;` there ends a command.
    pub fn is_open(self) -> bool
        ensures { result ≡ is_open self }
    {
        matches!(self, Spot::LineStart | Spot::Inside | Spot::Slash)
    }
}

/// A byte between two commands that begins none.
pub fn stays_between(spot: Spot, byte: u8) -> bool
    ensures { result ≡ stays_between spot byte }
{
    match spot {
        Spot::LineStart => is_blank(byte) || byte == b'*' || byte == b'/',
        Spot::Inside => is_blank(byte) || byte == b'/',
        Spot::Slash => byte == b'*',
        _ => true,
    }
}
