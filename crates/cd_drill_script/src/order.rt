/// One of the two nodes of a drill.
#[derive(Clone, Copy, Debug, PartialEq, Eq)]
pub enum Party {
    A,
    B,
}

/// What a line asks for. Names and texts lie in the script.
#[derive(Clone, Copy, Debug)]
pub enum Order<'a> {
    /// At this node the file of this name holds these bytes.
    Text(Party, &'a [u8], &'a [u8]),
    /// There it holds so many bytes, of which byte i is i modulo 251.
    Fill(Party, &'a [u8], u32),
    /// The node does this command.
    Do(Party, &'a [u8]),
    /// Up to so many turns are made.
    Turn(u64),
}

/// A line of a script that asks for something, and its number, counted from 1.
#[derive(Clone, Copy, Debug)]
pub struct Numbered<'a> {
    pub line: u64,
    pub order: Order<'a>,
}
