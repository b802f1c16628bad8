//! The course of a drill: its nodes, and what was told so far.
ghost use Rattle.std.specs.Prelude.{◌≡◌, ◌++◌, ◌%◌, ◌∷◌, [], List, length, map, reverse, codes, OnOk, IfOk};
ghost use Rattle.cd_drill_script.specs.Script.{Order as Orders};
ghost use Rattle.cd_drill_script.specs.Seen.{seen_order, seen_line};
ghost use Rattle.cd_drill.specs.Course.{filling, half_of, OtherStays, PutAt, Replied, WereMade, TookTurns, Did, IsBegin, Ran};
ghost use Rattle.cd_drill.specs.Pairs.{AreAtRest, IsNew};
ghost use Rattle.cd_drill.specs.Commanded.{IsReplyTo};
ghost use Rattle.cd_drill.specs.Report.{node_report, turns_line, report_of, AreNamed};

use crate::fault::DrillFault;
use crate::reply::{reply_to, write_reply};
use crate::report::{law_of_names, write_half};
use crate::test_pair::TestPair;
use cd_drill_script::{Numbered, Order, Party};
use cd_operator::Reply;
use cd_types::{Moment, NodeName};
use std::alloc::Global;

/// The moment at which a drill begins.
const BEGIN: u64 = 1_709_287_200;

/// What was done of a script: the nodes, what was replied, and how many turns did something.
#[derive(Drop)]
pub struct Course {
    pub(crate) pair: TestPair,
    out: Vec<u8>,
    turns: u64,
}

/// The bytes with which a file is filled: byte i is i modulo 251.
fn filling(alloc: Global, count: u32) -> Result<Vec<u8>, DrillFault>
    ensures { IfOk result (λ bytes. bytes.items ≡ filling count) }
{
    let bytes = (0..count).map(|i| (i % 251) as u8).collect(alloc)?;
    Ok(bytes)
}

/// The two nodes at the beginning.
fn begin_pair(alloc: Global) -> Result<TestPair, DrillFault>
    ensures rest { IfOk result (λ pair. AreAtRest pair) }
    ensures begin { IfOk result (IsNew (codes "ALPHA") (codes "BETA") 1709287200) }
{
    let (Some(a), Some(b), Some(now)) = (
        NodeName::new(b"ALPHA"),
        NodeName::new(b"BETA"),
        Moment::new(BEGIN),
    ) else {
        return Err(DrillFault::NoMemory);
    };
    let pair = TestPair::new(alloc, a, b, now)?;
    Ok(pair)
}

/// A node does a command, and replies.
fn reply_at(
    alloc: Global,
    pair: &mut TestPair,
    party: Party,
    text: &[u8],
) -> Result<Reply, DrillFault>
    requires { AreAtRest pair.old }
    ensures rest { OnOk result (AreAtRest pair.new) }
    ensures done { IfOk result (λ reply. IsReplyTo text.now reply (half_of party pair.old) (half_of party pair.new)) }
    ensures other { OnOk result (OtherStays party pair.old pair.new) }
{
    match party {
        Party::A => {
            let reply = reply_to(alloc, &mut pair.a, text)?;
            Ok(reply)
        }
        Party::B => {
            let reply = reply_to(alloc, &mut pair.b, text)?;
            Ok(reply)
        }
    }
}

/// Up to so many turns are made. Answers how many did something.
fn make_turns(pair: &mut TestPair, count: u64) -> Result<u64, DrillFault>
    requires { AreAtRest pair.old }
    ensures rest { OnOk result (AreAtRest pair.new) }
    ensures made { IfOk result (λ made. WereMade count made pair.old pair.new) }
{
    for made in 0..count {
        let there = pair.turn()?;
        if !there {
            return Ok(made);
        }
    }
    Ok(count)
}

impl Course {
    /// Its life ends.
    pub fn close(self) {
        drop(self);
    }

    /// The beginning of a drill.
    pub fn begin(alloc: Global) -> Result<Course, DrillFault>
        ensures rest { IfOk result (λ course. AreAtRest course.pair) }
        ensures begin { IfOk result (λ course. IsBegin course) }
    {
        let pair = begin_pair(alloc)?;
        Ok(Course {
            pair,
            out: Vec::new(alloc),
            turns: 0,
        })
    }

    fn put(&mut self, party: Party, name: &[u8], bytes: &[u8]) -> Result<(), DrillFault>
        requires { AreAtRest self.old.pair }
        ensures rest { OnOk result (AreAtRest self.new.pair) }
        ensures put { OnOk result (PutAt party name.now bytes.now self.old self.new) }
    {
        match party {
            Party::A => self.pair.a.put(name, bytes)?,
            Party::B => self.pair.b.put(name, bytes)?,
        }
        Ok(())
    }

    fn fill(
        &mut self,
        alloc: Global,
        party: Party,
        name: &[u8],
        count: u32,
    ) -> Result<(), DrillFault>
        requires { AreAtRest self.old.pair }
        ensures rest { OnOk result (AreAtRest self.new.pair) }
        ensures put { OnOk result (PutAt party name.now (filling count) self.old self.new) }
    {
        let bytes = filling(alloc, count)?;
        match self.put(party, name, &bytes) {
            Ok(()) => Ok(()),
            Err(fault) => Err(fault),
        }
    }

    fn command(&mut self, alloc: Global, party: Party, text: &[u8]) -> Result<(), DrillFault>
        requires { AreAtRest self.old.pair }
        ensures rest { OnOk result (AreAtRest self.new.pair) }
        ensures replied { OnOk result (Replied party text.now self.old self.new) }
    {
        let reply = reply_at(alloc, &mut self.pair, party, text)?;
        write_reply(alloc, reply, &mut self.out)?;
        Ok(())
    }

    /// Up to so many turns are made, and counted.
    fn turns(&mut self, count: u64) -> Result<(), DrillFault>
        requires { AreAtRest self.old.pair }
        ensures rest { OnOk result (AreAtRest self.new.pair) }
        ensures turned { OnOk result (TookTurns count self.old self.new) }
    {
        let made = make_turns(&mut self.pair, count)?;
        self.turns = self.turns.saturating_add(made);
        Ok(())
    }

    fn order(&mut self, alloc: Global, order: &Order<'_>) -> Result<(), DrillFault>
        requires { AreAtRest self.old.pair }
        ensures rest { OnOk result (AreAtRest self.new.pair) }
        ensures did { OnOk result (Did (seen_order order.now) self.old self.new) }
    {
        match order {
            Order::Text(party, name, bytes) => match self.put(*party, *name, *bytes) {
                Ok(()) => Ok(()),
                Err(fault) => Err(fault),
            },
            Order::Fill(party, name, count) => match self.fill(alloc, *party, *name, *count) {
                Ok(()) => Ok(()),
                Err(fault) => Err(fault),
            },
            Order::Do(party, text) => match self.command(alloc, *party, *text) {
                Ok(()) => Ok(()),
                Err(fault) => Err(fault),
            },
            Order::Turn(count) => match self.turns(*count) {
                Ok(()) => Ok(()),
                Err(fault) => Err(fault),
            },
        }
    }

    /// Does what the lines of a script ask for, one after another.
    pub fn run(&mut self, alloc: Global, lines: &[Numbered<'_>]) -> Result<(), DrillFault>
        requires rest { AreAtRest self.old.pair }
        requires begin { IsBegin self.old }
        ensures rest { OnOk result (AreAtRest self.new.pair) }
        ensures ran { OnOk result (Ran (reverse (map (λ line. seen_order line.order) lines.now)) self.new) }
    {
        for line in lines {
            match self.order(alloc, &line.order) {
                Ok(()) => {}
                Err(fault) => return Err(fault),
            }
        }
        Ok(())
    }

    /// The report: what was replied, what each node recorded with its files, and the turns.
    pub fn report(&self, alloc: Global) -> Result<Vec<u8>, DrillFault>
        ensures report { IfOk result (λ report. report.items ≡ report_of self.now) }
        ensures named { AreNamed self.now.pair }
    {
        law_of_names(&self.pair.a);
        law_of_names(&self.pair.b);
        let mut report = Vec::from_slice(alloc, &self.out)?;
        write_half(alloc, &self.pair.a, b"ALPHA", &mut report)?;
        write_half(alloc, &self.pair.b, b"BETA", &mut report)?;
        let last = format!(in alloc; "TURNS {}\n", self.turns)?;
        report.extend_from_slice(last.as_bytes())?;
        Ok(report)
    }
}
