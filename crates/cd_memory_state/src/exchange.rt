use crate::session::Session;
use cd_types::NoMemory;
use std::alloc::Global;

/// The sessions of lines, by number from 1 on, and the order of their sends.
#[derive(Drop)]
pub struct Exchange {
    alloc: Global,
    sessions: Vec<Session>,
    sends: Vec<u64>,
}

impl Exchange {
    ghost use Rattle.std.specs.Prelude.{◌≡◌, ◌≤◌, ◌+◌, IfOk, OnOk, OnErr};
    ghost use Rattle.cd_outside.specs.Lines.{IsFresh, took, sent};
    ghost use Rattle.cd_memory_state.specs.Exchange.{traffic_in, last_in, SameTraffic, NoCounts, SameCounts, CountsFault, CountsEnd};

    /// No session.
    pub fn new(alloc: Global) -> Self
        ensures last { last_in result ≡ 0 }
        ensures counts { NoCounts result }
    {
        Exchange {
            alloc,
            sessions: Vec::new(alloc),
            sends: Vec::new(alloc),
        }
    }

    /// The number of the newest session.
    pub fn last(&self) -> u64
        ensures { result ≡ last_in self.now }
    {
        self.sessions.len() as u64
    }

    /// Makes a session, and tells its number.
    pub fn open(&mut self) -> Result<u64, NoMemory>
        ensures number { IfOk result (λ number. (number ≡ last_in self.old + 1) × (last_in self.new ≡ number)) }
        ensures fresh { IfOk result (λ number. IsFresh number (traffic_in self.new)) }
        ensures traffic { traffic_in self.new ≡ traffic_in self.old }
        ensures none { OnErr result (last_in self.new ≡ last_in self.old) }
        ensures counts { SameCounts self.old self.new }
    {
        self.sessions.push(Session::new(self.alloc))?;
        Ok(self.sessions.len() as u64)
    }

    /// The bytes that were given to a session; none where there is no such session.
    pub fn given(&self, number: u64) -> &[u8]
        ensures { result.now ≡ (traffic_in self.now).given number }
    {
        if 0 < number && number <= self.last() {
            self.sessions[(number - 1) as usize].given()
        } else {
            &[]
        }
    }

    /// The bytes that were taken from a session; none where there is no such session.
    pub fn taken(&self, number: u64) -> &[u8]
        ensures { result.now ≡ (traffic_in self.now).taken number }
    {
        if 0 < number && number <= self.last() {
            self.sessions[(number - 1) as usize].taken()
        } else {
            &[]
        }
    }

    /// Takes bytes from a session.
    pub fn take(&mut self, number: u64, bytes: &[u8]) -> Result<(), NoMemory>
        requires from { 1 ≤ number }
        requires to { number ≤ last_in self.old }
        ensures taken { OnOk result (traffic_in self.new ≡ took number bytes.now (traffic_in self.old)) }
        ensures same { OnErr result (traffic_in self.new ≡ traffic_in self.old) }
        ensures last { last_in self.new ≡ last_in self.old }
        ensures counts { SameCounts self.old self.new }
    {
        let session = &mut self.sessions[(number - 1) as usize];
        session.take(bytes)
    }

    /// Gives bytes to a session.
    pub fn give(&mut self, number: u64, bytes: &[u8]) -> Result<(), NoMemory>
        requires from { 1 ≤ number }
        requires to { number ≤ last_in self.old }
        ensures sent { OnOk result (traffic_in self.new ≡ sent number bytes.now (traffic_in self.old)) }
        ensures same { OnErr result (traffic_in self.new ≡ traffic_in self.old) }
        ensures last { last_in self.new ≡ last_in self.old }
        ensures counts { SameCounts self.old self.new }
    {
        self.sends.reserve(1)?;
        let session = &mut self.sessions[(number - 1) as usize];
        session.give(bytes)?;
        self.sends.push_reserved(number);
        Ok(())
    }

    /// Counts a fault of a session.
    pub fn fail(&mut self, number: u64)
        requires from { 1 ≤ number }
        requires to { number ≤ last_in self.old }
        ensures counts { CountsFault number self.old self.new }
        ensures same { SameTraffic self.old self.new }
    {
        let session = &mut self.sessions[(number - 1) as usize];
        session.fail();
    }

    /// Counts an end of a session.
    pub fn end(&mut self, number: u64)
        requires from { 1 ≤ number }
        requires to { number ≤ last_in self.old }
        ensures counts { CountsEnd number self.old self.new }
        ensures same { SameTraffic self.old self.new }
    {
        let session = &mut self.sessions[(number - 1) as usize];
        session.end();
    }
}
