use crate::Lent;
use cd_types::{Disp, Hold, NodeName, Retain, Side, Start};

/// What a parameter sets.
#[derive(Clone, Copy, Debug, PartialEq, Eq)]
pub enum Slot {
    /// The partner.
    Snode,
    /// The priority.
    Prty,
    /// The class.
    Class,
    /// Whether the Process is held.
    Hold,
    /// Whether the Process is kept for copies of it.
    Retain,
    /// When the Process may start.
    Start,
    /// Accounting data and names, which have no effect.
    Pacct,
    Sacct,
    Notify,
    Pnodeid,
    Snodeid,
    /// A file.
    File,
    /// The side on which something is done.
    Side,
    /// The items with which a file is copied, which have no effect.
    Items,
    /// The command that is run.
    Command,
    /// How a source is shared, which has no effect.
    Share,
    /// What becomes of a destination.
    Disp,
    /// The bytes between two checkpoints.
    Ckpt,
    /// Whether a task is started again after a stop.
    Restart,
    /// The program and the library of a RUN, which have no effect.
    Pgm,
    Library,
}

/// The parameters that a list of them has given so far. `None` and false stand for those that it hasn't.
#[derive(Drop)]
pub struct Given<'a> {
    pub snode: Option<NodeName>,
    pub prty: Option<u8>,
    pub class: Option<u8>,
    pub hold: Option<Hold>,
    pub retain: Option<Retain>,
    /// The place of the word RETAIN.
    pub retain_at: u32,
    pub start: Option<Start>,
    pub pacct: bool,
    pub sacct: bool,
    pub notify: bool,
    pub pnodeid: bool,
    pub snodeid: bool,
    pub file: Option<Lent<'a>>,
    pub side: Option<Side>,
    pub items: bool,
    pub command: Option<Lent<'a>>,
    pub share: bool,
    pub disp: Option<Disp>,
    pub ckpt: Option<u64>,
    pub restart: Option<bool>,
    pub pgm: bool,
    pub library: bool,
}
