//! The limits of a node, each in one place.

/// The greatest number of a Process.
pub const GREATEST_NUMBER: u32 = 99_999;

/// So many Processes may be live at a node at once.
pub const MOST_LIVE: u32 = 4_096;

/// So many statements a Process may have. Their places count from 0.
pub const MOST_STATEMENTS: usize = 1_024;

/// The place behind the last one that a statement may have, as it stands in keys.
pub const END_OF_PLACES: u16 = 1_024;

/// The most bytes of a Process text, before and after substitution.
pub const LONGEST_TEXT: usize = 65_536;

/// The most bytes of the text that a journal keeps of a Process.
pub const LONGEST_KEPT_TEXT: usize = 200_000;

/// The most bytes of a command, and of a line of a drill's script.
pub const LONGEST_COMMAND: usize = 70_000;

/// The most bytes of the command that a task runs.
pub const LONGEST_TASK: usize = 32_768;

/// The most bytes of a piece of a file, and so the greatest block of a session.
pub const LONGEST_PIECE: usize = 65_536;

/// The most bytes of a frame behind its length.
pub const LONGEST_FRAME: u32 = 131_072;
