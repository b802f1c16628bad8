//! Which word and which sign it is.
ghost use Rattle.std.specs.Prelude.{◌≡◌, ◌∷◌, []};
ghost use Rattle.cd_grammar.specs.Words.{is_word, said_in, statement_words, inner_words, head_words, step_words, or_else, or_other, key_of, sign_of};

use crate::{Key, Sign};

/// Whether two words are one but for the case of their letters.
pub fn is_word(word: &[u8], other: &[u8]) -> bool
    ensures { result ≡ is_word word.now other.now }
{
    word.eq_ignore_ascii_case(other)
}

/// The word with which a statement begins or ends, if it is one.
#[tactic(auto, unfolding(crate::specs::Words::said_in))]
fn statement_key(word: &[u8]) -> Option<Key>
    ensures { result ≡ said_in statement_words word.now }
{
    if is_word(word, b"PROCESS") {
        Some(Key::Process)
    } else if is_word(word, b"COPY") {
        Some(Key::Copy)
    } else if is_word(word, b"RUN") {
        Some(Key::Run)
    } else if is_word(word, b"SUBMIT") {
        Some(Key::Submit)
    } else if is_word(word, b"IF") {
        Some(Key::If)
    } else if is_word(word, b"ELSE") {
        Some(Key::Else)
    } else if is_word(word, b"EIF") {
        Some(Key::Eif)
    } else if is_word(word, b"GOTO") {
        Some(Key::Goto)
    } else if is_word(word, b"EXIT") {
        Some(Key::Exit)
    } else if is_word(word, b"PEND") {
        Some(Key::Pend)
    } else {
        None
    }
}

/// The language's own word that stands within statements, if it is one.
#[tactic(auto, unfolding(crate::specs::Words::said_in))]
fn inner_key(word: &[u8]) -> Option<Key>
    ensures { result ≡ said_in inner_words word.now }
{
    if is_word(word, b"TASK") {
        Some(Key::Task)
    } else if is_word(word, b"JOB") {
        Some(Key::Job)
    } else if is_word(word, b"THEN") {
        Some(Key::Then)
    } else if is_word(word, b"PNODE") {
        Some(Key::Pnode)
    } else if is_word(word, b"SNODE") {
        Some(Key::Snode)
    } else if is_word(word, b"FROM") {
        Some(Key::From)
    } else if is_word(word, b"TO") {
        Some(Key::To)
    } else if is_word(word, b"COMPRESS") {
        Some(Key::Compress)
    } else if is_word(word, b"EXTENDED") {
        Some(Key::Extended)
    } else {
        None
    }
}

/// The parameter of PROCESS, if it is one.
#[tactic(auto, unfolding(crate::specs::Words::said_in))]
fn head_key(word: &[u8]) -> Option<Key>
    ensures { result ≡ said_in head_words word.now }
{
    if is_word(word, b"PRTY") {
        Some(Key::Prty)
    } else if is_word(word, b"CLASS") {
        Some(Key::Class)
    } else if is_word(word, b"HOLD") {
        Some(Key::Hold)
    } else if is_word(word, b"RETAIN") {
        Some(Key::Retain)
    } else if is_word(word, b"STARTT") {
        Some(Key::Startt)
    } else if is_word(word, b"PACCT") {
        Some(Key::Pacct)
    } else if is_word(word, b"SACCT") {
        Some(Key::Sacct)
    } else if is_word(word, b"NOTIFY") {
        Some(Key::Notify)
    } else if is_word(word, b"PNODEID") {
        Some(Key::Pnodeid)
    } else if is_word(word, b"SNODEID") {
        Some(Key::Snodeid)
    } else {
        None
    }
}

/// The parameter of another statement, if it is one.
#[tactic(auto, unfolding(crate::specs::Words::said_in))]
fn step_key(word: &[u8]) -> Option<Key>
    ensures { result ≡ said_in step_words word.now }
{
    if is_word(word, b"CKPT") {
        Some(Key::Ckpt)
    } else if is_word(word, b"PRIMECHAR") {
        Some(Key::Primechar)
    } else if is_word(word, b"FILE") {
        Some(Key::File)
    } else if is_word(word, b"DSN") {
        Some(Key::Dsn)
    } else if is_word(word, b"SYSOPTS") {
        Some(Key::Sysopts)
    } else if is_word(word, b"DISP") {
        Some(Key::Disp)
    } else if is_word(word, b"RESTART") {
        Some(Key::Restart)
    } else if is_word(word, b"PGM") {
        Some(Key::Pgm)
    } else if is_word(word, b"SUBNODE") {
        Some(Key::Subnode)
    } else {
        None
    }
}

/// Which word it is.
#[tactic(auto, unfolding(crate::specs::Words::key_of))]
pub fn key_of(word: &[u8]) -> Key
    ensures { result ≡ key_of word.now }
{
    if let Some(key) = statement_key(word) {
        return key;
    }
    if let Some(key) = inner_key(word) {
        return key;
    }
    if let Some(key) = head_key(word) {
        return key;
    }
    match step_key(word) {
        Some(key) => key,
        None => Key::Other,
    }
}

/// Which sign it is, of the bytes that are one.
#[tactic(auto, unfolding(crate::specs::Words::sign_of))]
pub fn sign_of(bytes: &[u8]) -> Sign
    ensures { result ≡ sign_of bytes.now }
{
    if bytes == b"(".as_slice() {
        Sign::Open
    } else if bytes == b")".as_slice() {
        Sign::Close
    } else if bytes == b"=".as_slice() {
        Sign::Equals
    } else if bytes == b"==".as_slice() {
        Sign::Same
    } else if bytes == b",".as_slice() {
        Sign::Comma
    } else if bytes == b";".as_slice() {
        Sign::Semicolon
    } else if bytes == b"<".as_slice() {
        Sign::Less
    } else if bytes == b">".as_slice() {
        Sign::Greater
    } else if bytes == b"<=".as_slice() {
        Sign::AtMost
    } else if bytes == b">=".as_slice() {
        Sign::AtLeast
    } else {
        Sign::Unequal
    }
}
