//! The frames of a session, their bytes, and the reader of a stream of them.
#![tactic(auto)]

mod frame;
mod kind;
mod law;
mod next;
mod reader;
mod reading;
mod room;
mod symbols;
mod writing;

pub use frame::{Frame, FrameFault, Hello, RejectCause, Welcome};
pub use law::{law_of_frames, law_of_readers, law_of_streams, law_of_symbols};
pub use reader::Reader;
pub use symbols::{symbols_of, write_symbols};
pub use writing::write_frame;
