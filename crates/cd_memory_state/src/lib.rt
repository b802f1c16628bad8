//! What devices in memory hold: the bytes of a disk, of files and of sessions, with what a crash may leave of them. Of
//! faults and stops it knows nothing; those are the devices' own.
#![tactic(auto)]

mod bytes;
mod cabinet;
mod content;
mod entry;
mod exchange;
mod feed;
mod generator;
mod image;
mod ledger;
mod log;
mod marks;
mod parts;
mod past;
mod piece;
mod roll;
mod session;
mod shelves;
mod slot;
mod step;

pub use cabinet::Cabinet;
pub use content::Content;
pub use exchange::Exchange;
pub use feed::Feed;
pub use generator::Generator;
pub use ledger::Ledger;
pub use parts::Parts;
pub use piece::Piece;
pub use roll::Roll;
pub use shelves::Shelves;
pub use slot::Slot;
