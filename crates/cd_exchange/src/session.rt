use cd_outside::Sid;
use cd_protocol::Phase;

/// A session of a node, with its phase.
#[derive(Debug, Drop)]
pub struct Session {
    pub sid: Sid,
    pub phase: Phase,
}
