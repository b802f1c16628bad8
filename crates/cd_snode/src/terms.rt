//! Keys and numbers of a session.
ghost use Rattle.std.specs.Prelude.{◌≡◌};
ghost use Rattle.cd_protocol.specs.Rows.{is_number_of, is_of_terms, with_number};

use cd_book::same_bytes;
use cd_protocol::SessionTerms;
use cd_types::{Key, ProcNo};

/// Whether a number is that of the session, or the first one that it tells.
pub(crate) fn is_number_of(own: Option<ProcNo>, number: ProcNo) -> bool
    ensures { result ≡ is_number_of own number }
{
    match own {
        None => true,
        Some(own) => number.number() == own.number(),
    }
}

/// Whether a key is of the session.
pub(crate) fn is_of_terms(terms: &SessionTerms, key: &Key) -> bool
    ensures { result ≡ is_of_terms terms.now key.now }
{
    same_bytes(key.pnode.as_bytes(), terms.pnode.as_bytes())
        && key.home == terms.home
        && is_number_of(terms.number, key.number)
}

/// The session with its number.
pub(crate) fn with_number(number: ProcNo, terms: &SessionTerms) -> SessionTerms
    ensures { result ≡ with_number number terms.now }
{
    SessionTerms {
        pnode: terms.pnode,
        home: terms.home,
        number: Some(number),
        block: terms.block,
    }
}
