ghost use Rattle.std.specs.Prelude.{◌≡◌, ◌≤◌, ◌++◌, OnOk, OnErr};
ghost use Rattle.cd_outside.specs.Counts.{next};
ghost use Rattle.cd_memory_state.specs.Sessions.{fresh_session};

use cd_types::NoMemory;
use std::alloc::Global;
use std::marker::Model;

/// The bytes of a session, and its counts.
#[derive(Drop)]
pub struct Session {
    taken: Vec<u8>,
    given: Vec<u8>,
    faults: u64,
    ends: u64,
}

impl Model for Session {
    ghost use Rattle.cd_memory_state.specs.Sessions.{SessionHeld};

    ghost Value = { SessionHeld };

    ghost view = { λ session. record { taken = session.taken.items; given = session.given.items; faults = session.faults; ends = session.ends } };
}

impl Session {
    /// A session of which nothing was taken or given.
    pub fn new(alloc: Global) -> Self
        ensures { result ≡ fresh_session }
    {
        Session {
            taken: Vec::new(alloc),
            given: Vec::new(alloc),
            faults: 0,
            ends: 0,
        }
    }

    /// The bytes that were given to it.
    pub fn given(&self) -> &[u8]
        ensures { result.now ≡ self.now.given }
    {
        &self.given
    }

    /// The bytes that were taken from it.
    pub fn taken(&self) -> &[u8]
        ensures { result.now ≡ self.now.taken }
    {
        &self.taken
    }

    /// Takes bytes from it.
    pub fn take(&mut self, bytes: &[u8]) -> Result<(), NoMemory>
        ensures taken { OnOk result (self.new ≡ record self.old { taken = self.old.taken ++ bytes.now }) }
        ensures same { OnErr result (self.new ≡ self.old) }
    {
        self.taken.extend_from_slice(bytes)?;
        Ok(())
    }

    /// Gives bytes to it.
    pub fn give(&mut self, bytes: &[u8]) -> Result<(), NoMemory>
        ensures given { OnOk result (self.new ≡ record self.old { given = self.old.given ++ bytes.now }) }
        ensures same { OnErr result (self.new ≡ self.old) }
    {
        self.given.extend_from_slice(bytes)?;
        Ok(())
    }

    /// Counts a fault.
    pub fn fail(&mut self)
        ensures count { self.new ≡ record self.old { faults = next self.old.faults } }
        ensures later { self.old.faults ≤ self.new.faults }
    {
        self.faults = self.faults.saturating_add(1);
    }

    /// Counts an end.
    pub fn end(&mut self)
        ensures count { self.new ≡ record self.old { ends = next self.old.ends } }
        ensures later { self.old.ends ≤ self.new.ends }
    {
        self.ends = self.ends.saturating_add(1);
    }
}
