//! Two nodes, and what is on the way between them.
ghost use Rattle.std.specs.Prelude.{◌≡◌, ◌<◌, ◌≤◌, ◌++◌, ◌∷◌, [], true, false, length, take, drop, min, slice_get, slice_set, option_to_list, Some, None, Ok, OnOk, IfOk};
ghost use Rattle.cd_memory.specs.MemoryLines.{traffic_of};
ghost use Rattle.cd_drill.specs.AtRest.{IsAtRest, Chose};
ghost use Rattle.cd_drill.specs.declared.test_pair.Link.{Link};
ghost use Rattle.cd_drill.specs.Linking.{choice_answer, link_of, last_link};
ghost use Rattle.cd_drill.specs.Pairs.{AreAtRest, frame_len, is_open_in, is_open, on_way, waits, CameOf, answer_to, WasBrought, HandledIn, HandledBelow, Accepted, last_in, counts_all, ChoseAtA, ChoseAtB, ChoseOne, TurnOf, IsNew};

use crate::test_node::TestNode;
use cd_book::same_bytes;
use cd_effects::Fault;
use cd_exchange::Session;
use cd_outside::Sid;
use cd_plain::Handled;
use cd_protocol::Phase;
use cd_types::{Moment, NodeName};
use std::alloc::Global;

/// A session of the two nodes: its number at each, and how many of the bytes that each gave came to the other.
#[derive(Clone, Copy, Debug)]
pub struct Link {
    at_a: Sid,
    at_b: Sid,
    of_a: usize,
    of_b: usize,
}

/// The two nodes of a drill, and their sessions in the order in which they were connected.
#[derive(Drop)]
pub struct TestPair {
    pub a: TestNode,
    pub b: TestNode,
    links: Vec<Link>,
}

/// The number of bytes of the frame at the front, its length's four bytes among them; all of them where no whole frame stands there.
fn frame_len(bytes: &[u8]) -> usize
    ensures len { result ≡ frame_len bytes.now }
    ensures within { result ≤ length bytes.now }
{
    match bytes {
        [a, b, c, d, ..] => {
            let len = u32::from_be_bytes([*a, *b, *c, *d]) as usize;
            (len + 4).min(bytes.len())
        }
        _ => bytes.len(),
    }
}

fn is_open_in(phase: &Phase) -> bool
    ensures { result ≡ is_open_in phase.now }
{
    match phase {
        Phase::Gone => false,
        Phase::Greet(..) => true,
        Phase::Await(..) => true,
        Phase::Ask(..) => true,
        Phase::Fresh => true,
        Phase::Ready(..) => true,
        Phase::Offer(..) => true,
        Phase::Send(..) => true,
        Phase::Take(..) => true,
    }
}

/// Whether a session among these is there and isn't gone.
fn is_open(sessions: &[Session], sid: Sid) -> bool
    ensures { result ≡ is_open sessions.now sid.number }
{
    match sessions {
        [] => false,
        [first, more @ ..] => {
            if first.sid.number == sid.number {
                is_open_in(&first.phase)
            } else {
                is_open(more, sid)
            }
        }
    }
}

/// Whether a node answers so where these bytes are on the way to it in a session.
fn is_answer_to(way: &[u8], sid: Sid, answer: Handled) -> bool
    ensures { result ≡ true → answer ≡ answer_to way.now sid }
{
    match answer {
        Handled::Went => !way.is_empty(),
        Handled::Lost(lost) => way.is_empty() && lost.number == sid.number,
        _ => false,
    }
}

/// The first bytes of those that were given to a session.
fn first_of(given: &[u8], passed: usize) -> &[u8]
    ensures { result.now ≡ take passed given.now }
{
    let (first, _) = given.split_at(passed.min(given.len()));
    first
}

/// Whether what a node took of a session is what the other one gave first.
fn has_taken(taken: &[u8], given: &[u8], passed: usize) -> bool
    ensures { result ≡ true → taken.now ≡ take passed given.now }
{
    same_bytes(taken, first_of(given, passed))
}

/// The newest session of each node is one session of both.
fn link_of(at_a: &[Session], at_b: &[Session]) -> Option<Link>
    ensures { option_to_list result ≡ link_of (last_in at_a.now) (last_in at_b.now) }
{
    match (at_a.last(), at_b.last()) {
        (Some(a), Some(b)) => Some(Link {
            at_a: a.sid,
            at_b: b.sid,
            of_a: 0,
            of_b: 0,
        }),
        _ => None,
    }
}

/// Whether the last of these sessions, where there is one, has the number of all.
fn counts_all(sessions: &[Session]) -> bool
    ensures { result ≡ counts_all sessions.now }
{
    match sessions.last() {
        Some(last) => last.sid.number == sessions.len() as u64,
        None => true,
    }
}

/// What a node gave to a session and the other one didn't get yet.
fn on_way<'a>(from: &'a TestNode, sid: Sid, passed: usize) -> &'a [u8]
    ensures { result.now ≡ on_way from.now sid passed }
{
    let given = from.given(sid);
    let (_, way) = given.split_at(passed.min(given.len()));
    way
}

/// The frame at the front of what a session was given and the node didn't get yet comes to it, where there is one. Answers how many
/// bytes came to it so far.
fn pass(given: &[u8], passed: usize, to: &mut TestNode, sid: Sid) -> Result<usize, Fault>
    requires { IsAtRest to.old }
    ensures rest { OnOk result (IsAtRest to.new) }
    ensures came { IfOk result (λ now_passed. CameOf (drop passed given.now) sid passed to.old to.new now_passed) }
{
    let (_, way) = given.split_at(passed.min(given.len()));
    if way.is_empty() {
        return Ok(passed);
    }
    let len = frame_len(way);
    match to.offer(sid, &way[..len]) {
        Ok(()) => Ok(passed + len),
        Err(_) => Err(Fault::NoMemory),
    }
}

/// Whether a frame or an end waits for a node in a session.
fn waits(from: &TestNode, from_sid: Sid, passed: usize, to: &TestNode, to_sid: Sid) -> bool
    ensures { result ≡ waits from.now from_sid passed to.now to_sid }
{
    is_open(to.sessions(), to_sid)
        && (!on_way(from, from_sid, passed).is_empty() || !is_open(from.sessions(), from_sid))
}

/// What is on the way to a node comes to it, and the node has its turn. Answers how many bytes came to it so far. Where the node answers
/// something else than that the frame was handled, or the end, or took other bytes, memory ran out for a device.
fn bring(
    from: &TestNode,
    from_sid: Sid,
    passed: usize,
    to: &mut TestNode,
    to_sid: Sid,
) -> Result<usize, Fault>
    requires { IsAtRest to.old }
    ensures rest { OnOk result (IsAtRest to.new) }
    ensures brought { IfOk result (λ now_passed. WasBrought from.now from_sid passed to.old to_sid to.new now_passed) }
{
    let came = match pass(from.given(from_sid), passed, to, to_sid) {
        Ok(came) => came,
        Err(fault) => return Err(fault),
    };
    let answer = match to.turn(to_sid) {
        Ok(answer) => answer,
        Err(fault) => return Err(fault),
    };
    if is_answer_to(on_way(from, from_sid, passed), to_sid, answer)
        && has_taken(to.taken(to_sid), from.given(from_sid), came)
    {
        Ok(came)
    } else {
        Err(Fault::NoMemory)
    }
}

/// A node chooses. Answers whether it found something. Where it couldn't do all about it, memory ran out for a device.
fn choose(half: &mut TestNode) -> Result<bool, Fault>
    requires { IsAtRest half.old }
    ensures rest { OnOk result (IsAtRest half.new) }
    ensures chose { IfOk result (λ there. Chose (choice_answer there) half.old half.new) }
{
    match half.choose() {
        Ok(Handled::Went) => Ok(true),
        Ok(Handled::Idle) => Ok(false),
        Ok(_) => Err(Fault::NoMemory),
        Err(fault) => Err(fault),
    }
}

/// A node takes the session that the other one began. Where there is none, memory ran out for a device.
fn accept(half: &mut TestNode) -> Result<(), Fault>
    requires { IsAtRest half.old }
    ensures rest { OnOk result (IsAtRest half.new) }
    ensures accepted { OnOk result (Accepted half.old half.new) }
{
    match half.accept() {
        Ok(Handled::Went) => Ok(()),
        Ok(_) => Err(Fault::NoMemory),
        Err(fault) => Err(fault),
    }
}

impl TestPair {
    /// Both nodes at their beginning.
    pub fn new(alloc: Global, a: NodeName, b: NodeName, now: Moment) -> Result<TestPair, Fault>
        ensures rest { IfOk result (λ pair. AreAtRest pair) }
        ensures begin { IfOk result (λ pair. IsNew a b now pair) }
    {
        let one = match TestNode::new(alloc, a, 1, b, now) {
            Ok(half) => half,
            Err(fault) => return Err(fault),
        };
        match TestNode::new(alloc, b, 2, a, now) {
            Ok(other) => Ok(TestPair {
                a: one,
                b: other,
                links: Vec::new(alloc),
            }),
            Err(fault) => {
                one.close();
                Err(fault)
            }
        }
    }

    /// Handles what waits in the session at this place, at B first and else at A. Answers whether something did.
    fn handle_at(&mut self, at: usize) -> Result<bool, Fault>
        requires rest { AreAtRest self.old }
        requires at { at < length self.old.links.items }
        ensures rest { OnOk result (AreAtRest self.new) }
        ensures handled { IfOk result (λ there. (link : Link) → slice_get self.old.links.items at ≡ Some link → HandledIn at link there self.old self.new) }
    {
        let mut link = self.links[at];
        if waits(&self.a, link.at_a, link.of_a, &self.b, link.at_b) {
            link.of_a = bring(&self.a, link.at_a, link.of_a, &mut self.b, link.at_b)?;
            self.links[at] = link;
            return Ok(true);
        }
        if waits(&self.b, link.at_b, link.of_b, &self.a, link.at_a) {
            link.of_b = bring(&self.b, link.at_b, link.of_b, &mut self.a, link.at_a)?;
            self.links[at] = link;
            return Ok(true);
        }
        Ok(false)
    }

    /// Handles what waits in the lowest session in which something does. Answers whether there was one.
    fn handle(&mut self) -> Result<bool, Fault>
        requires { AreAtRest self.old }
        ensures rest { OnOk result (AreAtRest self.new) }
        ensures handled { IfOk result (λ there. HandledBelow there self.old self.new) }
    {
        for at in 0..self.links.len() {
            if self.handle_at(at)? {
                return Ok(true);
            }
        }
        Ok(false)
    }

    /// The newest session of each node is one session of both. Where it hasn't the number of all at its node, memory ran out for a device.
    fn link(&mut self) -> Result<(), Fault>
        requires { AreAtRest self.old }
        ensures rest { OnOk result (AreAtRest self.new) }
        ensures linked { OnOk result (self.new.links.items ≡ self.old.links.items ++ last_link self.old.a self.old.b) }
        ensures counted { OnOk result ((counts_all self.old.a.node.sessions ≡ true) × (counts_all self.old.b.node.sessions ≡ true)) }
        ensures a { self.new.a ≡ self.old.a }
        ensures b { self.new.b ≡ self.old.b }
    {
        if !counts_all(self.a.sessions()) {
            return Err(Fault::NoMemory);
        }
        if !counts_all(self.b.sessions()) {
            return Err(Fault::NoMemory);
        }
        match link_of(self.a.sessions(), self.b.sessions()) {
            Some(link) => match self.links.push(link) {
                Ok(()) => Ok(()),
                Err(_) => Err(Fault::NoMemory),
            },
            None => Ok(()),
        }
    }

    /// A chooses; where it connects, B accepts. Answers whether there was something to choose.
    fn choose_at_a(&mut self) -> Result<bool, Fault>
        requires { AreAtRest self.old }
        ensures rest { OnOk result (AreAtRest self.new) }
        ensures chose { IfOk result (λ there. ChoseAtA (choice_answer there) self.old self.new) }
    {
        let before = self.a.sessions().len();
        let there = choose(&mut self.a)?;
        if self.a.sessions().len() > before {
            accept(&mut self.b)?;
            self.link()?;
        }
        Ok(there)
    }

    /// B chooses; where it connects, A accepts. Answers whether there was something to choose.
    fn choose_at_b(&mut self) -> Result<bool, Fault>
        requires { AreAtRest self.old }
        ensures rest { OnOk result (AreAtRest self.new) }
        ensures chose { IfOk result (λ there. ChoseAtB (choice_answer there) self.old self.new) }
    {
        let before = self.b.sessions().len();
        let there = choose(&mut self.b)?;
        if self.b.sessions().len() > before {
            accept(&mut self.a)?;
            self.link()?;
        }
        Ok(there)
    }

    /// A choice at A, or else one at B. Answers whether there was any.
    fn choose(&mut self) -> Result<bool, Fault>
        requires { AreAtRest self.old }
        ensures rest { OnOk result (AreAtRest self.new) }
        ensures chose { IfOk result (λ there. ChoseOne there self.old self.new) }
    {
        let at_a = self.choose_at_a()?;
        if at_a {
            return Ok(true);
        }
        let at_b = self.choose_at_b()?;
        Ok(at_b)
    }

    /// A turn: what waits, else a choice at A, else one at B. Answers whether there was any.
    pub fn turn(&mut self) -> Result<bool, Fault>
        requires { AreAtRest self.old }
        ensures rest { OnOk result (AreAtRest self.new) }
        ensures turned { IfOk result (λ there. TurnOf there self.old self.new) }
    {
        match self.handle() {
            Ok(true) => return Ok(true),
            Ok(false) => {}
            Err(fault) => return Err(fault),
        }
        match self.choose() {
            Ok(there) => Ok(there),
            Err(fault) => Err(fault),
        }
    }
}
