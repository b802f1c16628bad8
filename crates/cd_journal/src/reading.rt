// Reads the bytes of a journal: its header, its gates and its lengths.
ghost use Rattle.std.specs.Prelude.{◌≡◌, ◌+◌, ◌<◌, ◌≤◌, ◌^◌, length, take, IsTrue, IfOk, IfSome, IfNone, Err, Ok};
ghost use Rattle.std.specs.Option.{SomeIff};
ghost use Rattle.cd_journal.specs.Bytes.{header, told_length, has_body, list_of};
ghost use Rattle.cd_journal.specs.Fault.{OnDisk, IfFull, IfUnfit};
ghost use Rattle.cd_journal.specs.Index.{IsBelow, IsClosed};

use crate::JournalFault;
use crate::place::Place;
use byteorder::{BigEndian, ByteOrder};
use std::alloc::Global;

/// The bytes with which a journal begins.
pub const HEADER: [u8; 8] = *b"CDNODE01";

/// The greatest length of a body, in bytes.
pub const MAX_BODY: u32 = 262_144;

// The first place that isn't the header's; `None` where all of it stands in front.
fn header_fault(bytes: &[u8]) -> Option<usize>
    ensures whole { IfNone result (take 8 bytes.now ≡ header) }
    ensures fault { IfSome result (λ at. 0 < length bytes.now → list_of bytes.now ≡ Err at) }
{
    for (i, wanted) in HEADER.iter().enumerate() {
        if i >= bytes.len() || bytes[i] != *wanted {
            return Some(i);
        }
    }
    None
}

// The length that the first four bytes tell.
#[tactic(auto, unfolding(crate::specs::Bytes::told_length))]
fn told(bytes: &[u8]) -> u32
    requires { 4 ≤ length bytes.now }
    ensures { result ≡ told_length bytes.now }
{
    BigEndian::read_u32(bytes)
}

// The length that stands in front, where it is in its range and so many bytes stand behind it.
fn body_length(bytes: &[u8]) -> Option<u32>
    ensures { SomeIff result (IsTrue (has_body bytes.now)) (told_length bytes.now) }
{
    if bytes.len() < 4 {
        return None;
    }
    let len = told(bytes);
    if len < 1 {
        return None;
    }
    if len > MAX_BODY {
        return None;
    }
    if len as usize > bytes.len() - 4 {
        return None;
    }
    Some(len)
}

/// Where the bodies of a journal's bytes stand, and the closed gate behind the last of them.
#[derive(Drop)]
pub struct Index {
    pub places: Vec<Place>,
    pub end: u32,
}

// Reads whole entries behind the header, up to a closed gate.
fn entries(alloc: Global, bytes: &[u8]) -> Result<Index, JournalFault>
    requires header { take 8 bytes.now ≡ header }
    requires small { length bytes.now < 2 ^ 32 }
    ensures closed { IfOk result (λ index. IsClosed bytes.now index.places.items index.end) }
    ensures below { IfOk result (λ index. IsBelow index.places.items index.end) }
    ensures unfit { IfUnfit result (λ at. list_of bytes.now ≡ Err at) }
    ensures disk { OnDisk result ⊥ }
    ensures full { IfFull result (λ _. ⊥) }
{
    let mut places = Vec::new(alloc);
    let mut end = HEADER.len();
    while end < bytes.len() {
        if bytes[end] != 1 {
            return Ok(Index {
                places,
                end: end as u32,
            });
        }
        let Some(len) = body_length(&bytes[end + 1..]) else {
            return Err(JournalFault::Unfit(end as u64 + 1));
        };
        let at = end as u32 + 5;
        places.push(Place { at, len })?;
        end += 5 + len as usize;
    }
    Err(JournalFault::Unfit(end as u64))
}

/// Where the bodies stand in a journal's bytes, of which there are some; `Unfit` at the first place that isn't as it has
/// to be, exactly where there is one.
pub fn scan(alloc: Global, bytes: &[u8]) -> Result<Index, JournalFault>
    requires some { 0 < length bytes.now }
    requires small { length bytes.now < 2 ^ 32 }
    ensures closed { IfOk result (λ index. IsClosed bytes.now index.places.items index.end) }
    ensures below { IfOk result (λ index. IsBelow index.places.items index.end) }
    ensures unfit { IfUnfit result (λ at. list_of bytes.now ≡ Err at) }
    ensures disk { OnDisk result ⊥ }
    ensures full { IfFull result (λ _. ⊥) }
{
    match header_fault(bytes) {
        Some(at) => Err(JournalFault::Unfit(at as u64)),
        None => entries(alloc, bytes),
    }
}
