//! The sessions of a node while one of them is at hand.
ghost use Rattle.std.specs.Prelude.{◌≡◌, []};
ghost use Rattle.cd_effects.specs.Stands.{holder_of};
ghost use Rattle.cd_protocol.specs.Closing.{key_under_way};
ghost use Rattle.cd_protocol.specs.Rows.{is_same_key};
ghost use Rattle.cd_exchange.specs.Sessions.{phase_among, phases_with, sessions_with};

use crate::Session;
use cd_book::same_key;
use cd_effects::{Holding, KeyOwners};
use cd_outside::Sid;
use cd_protocol::Phase;
use cd_session_rules::{Sessions, key_under_way};
use cd_types::Key;

/// The sessions of a node while one of them is at hand: its phase is lent, beside the others.
#[derive(Clone, Copy)]
pub(crate) struct AtHand<'a> {
    pub sid: Sid,
    pub phase: &'a Phase,
    pub others: &'a [Session],
    pub owners: &'a KeyOwners,
}

/// The session that holds a key, where the newest holding comes first.
fn holder_among(holdings: &[Holding], key: &Key) -> Option<u64>
    ensures { result ≡ holder_of holdings.now key.now }
{
    match holdings {
        [] => None,
        [first, more @ ..] => {
            if same_key(&first.key, key) {
                Some(first.sid.number)
            } else {
                holder_among(more, key)
            }
        }
    }
}

/// The key that is under way in one of these sessions.
fn key_among(sessions: &[Session], sid: u64) -> Option<Key>
    ensures { result ≡ key_under_way (phase_among sessions.now sid) }
{
    match sessions {
        [] => None,
        [first, more @ ..] => {
            if first.sid.number == sid {
                key_under_way(&first.phase)
            } else {
                key_among(more, sid)
            }
        }
    }
}

fn is_same_key(key: &Key, other: Option<Key>) -> bool
    ensures { result ≡ is_same_key key.now other }
{
    match other {
        None => false,
        Some(other) => same_key(key, &other),
    }
}

/// The key that is under way in a session, which may be the one at hand.
fn key_in(at_hand: &AtHand<'_>, sid: u64) -> Option<Key>
    ensures { result ≡ key_under_way (phases_with at_hand.now.sid.number at_hand.now.phase.now at_hand.now.others.now sid) }
{
    if at_hand.sid.number == sid {
        key_under_way(at_hand.phase)
    } else {
        key_among(at_hand.others, sid)
    }
}

impl Sessions for AtHand<'_> {
    ghost seen = { λ s. sessions_with [] s.sid.number s.phase.now s.others.now s.owners.now };

    fn is_newer(&self, sid: u64, key: &Key) -> bool {
        match holder_among(self.owners.holdings(), key) {
            None => false,
            Some(other) => sid < other && is_same_key(key, key_in(self, other)),
        }
    }

    fn is_detached(&self, sid: u64, key: Option<Key>) -> bool {
        match key {
            None => false,
            Some(key) => match holder_among(self.owners.holdings(), &key) {
                None => true,
                Some(other) => sid != other,
            },
        }
    }
}
