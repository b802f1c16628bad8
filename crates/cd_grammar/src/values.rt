//! Words and quoted texts as values.
ghost use Rattle.std.specs.Prelude.{◌≡◌, ◌∷◌, ◌<◌, ◌≤◌, ◌^◌, ◌||◌, ◌==◌, [], length, IsTrue, IfSome, IfNone, true, false};
ghost use Rattle.std.specs.List.{list_all, list_any};
ghost use Rattle.std.specs.Char.{is_ascii_alphanumeric, is_ascii_digit};
ghost use Rattle.std.specs.Option.{option_map};
ghost use Rattle.cd_grammar.specs.Answers.{taken};
ghost use Rattle.cd_grammar.specs.Values.{is_digits, number_of, number_in, node_in, file_in, is_own, label_in, has_reference, front_label_in, symbol_in, hold_in, retain_in, restart_in, disp_in, is_share, relation_in, unit_of, units_in, interval_in, is_item, are_items, are_behind, item_len, is_command};

use crate::words::is_word;
use crate::{Key, Lent};
use cd_ast::FaultName;
use cd_types::{Disp, Hold, LONGEST_TASK, Label, NodeName, Relation, Retain, is_file_name};

pub(crate) fn is_digit(byte: u8) -> bool
    ensures { result ≡ is_ascii_digit byte }
{
    byte.is_ascii_digit()
}

fn are_digits(word: &[u8]) -> bool
    ensures { result ≡ list_all is_ascii_digit word.now }
{
    word.iter().all(|byte| is_digit(*byte))
}

/// Whether it has digits alone.
#[tactic(auto, unfolding(crate::specs::Values::is_digits))]
fn is_digits(word: &[u8]) -> bool
    ensures exact { result ≡ is_digits word.now }
    ensures all { IsTrue result → IsTrue (list_all is_ascii_digit word.now) }
{
    if word.is_empty() {
        return false;
    }
    are_digits(word)
}

/// The number that at most ten digits write.
#[tactic(auto, unfolding(crate::specs::Values::number_of))]
fn number_of(digits: &[u8]) -> u64
    requires digits { IsTrue (list_all is_ascii_digit digits.now) }
    requires short { length digits.now ≤ 10 }
    ensures exact { result ≡ number_of digits.now }
    ensures small { result < 10000000000 }
{
    let mut value = 0;
    for digit in digits {
        value = 10 * value + (*digit - b'0') as u64;
    }
    value
}

/// A number between two bounds.
#[tactic(auto, unfolding(crate::specs::Values::number_in))]
pub fn number_in(low: u8, high: u8, word: &[u8]) -> Result<u8, FaultName>
    ensures { result ≡ taken true (number_in low high word.now) }
{
    if !is_digits(word) {
        return Err(FaultName::Unexpected);
    }
    if word.len() > 10 {
        return Err(FaultName::Range);
    }
    let number = number_of(word);
    if number < low as u64 || number > high as u64 {
        return Err(FaultName::Range);
    }
    Ok(number as u8)
}

/// A node's name.
#[tactic(auto, unfolding(crate::specs::Values::node_in))]
pub fn node_in(word: &[u8]) -> Result<NodeName, FaultName>
    ensures { result ≡ taken true (node_in word.now) }
{
    match NodeName::new(word) {
        Some(name) => Ok(name),
        None => Err(FaultName::Range),
    }
}

/// A file's name.
#[tactic(auto, unfolding(crate::specs::Values::file_in))]
pub fn file_in<'a>(name: &Lent<'a>) -> Result<Lent<'a>, FaultName>
    ensures { result ≡ taken true (file_in name.now) }
{
    if is_file_name(name.bytes()) {
        Ok(name.again())
    } else {
        Err(FaultName::Range)
    }
}

/// Whether it is one of the language's own words, which are no labels.
#[tactic(auto, unfolding(crate::specs::Values::is_own))]
pub fn is_own(key: Key) -> bool
    ensures { result ≡ is_own key }
{
    match key {
        Key::Process
        | Key::Copy
        | Key::Run
        | Key::Task
        | Key::Job
        | Key::Submit
        | Key::If
        | Key::Then
        | Key::Else
        | Key::Eif
        | Key::Goto
        | Key::Exit
        | Key::Pend
        | Key::Pnode
        | Key::Snode
        | Key::From
        | Key::To
        | Key::Compress
        | Key::Extended => true,
        _ => false,
    }
}

/// A label.
#[tactic(auto, unfolding(crate::specs::Values::label_in))]
pub fn label_in(key: Key, word: &[u8]) -> Result<Label, FaultName>
    ensures { result ≡ taken true (label_in key word.now) }
{
    if is_own(key) {
        return Err(FaultName::Unexpected);
    }
    match Label::new(word) {
        Some(label) => Ok(label),
        None => Err(FaultName::Range),
    }
}

fn has_ampersand(bytes: &[u8]) -> bool
    ensures { result ≡ list_any (λ c. c == 38) bytes.now }
{
    bytes.iter().any(|byte| *byte == b'&')
}

/// Whether a reference stands in the word, behind its first byte.
fn has_reference(word: &[u8]) -> bool
    ensures { result ≡ has_reference word.now }
{
    match word.split_first() {
        None => false,
        Some((_, bytes)) => has_ampersand(bytes),
    }
}

/// A label in front of a statement.
#[tactic(auto, unfolding(crate::specs::Values::front_label_in))]
pub fn front_label_in(key: Key, word: &[u8]) -> Result<Label, FaultName>
    ensures { result ≡ taken true (front_label_in key word.now) }
{
    if has_reference(word) {
        return Err(FaultName::Unexpected);
    }
    label_in(key, word)
}

/// A symbolic name behind its `&`.
#[tactic(auto, unfolding(crate::specs::Values::symbol_in))]
pub fn symbol_in<'a>(word: &Lent<'a>) -> Result<Lent<'a>, FaultName>
    ensures { result ≡ taken true (symbol_in word.now) }
{
    let Some((first, name)) = word.bytes().split_first() else {
        return Err(FaultName::Unexpected);
    };
    if *first != b'&' {
        return Err(FaultName::Unexpected);
    }
    if name.is_empty() || name.len() > 17 || !are_name_bytes(name) {
        return Err(FaultName::Range);
    }
    Ok(Lent::new(name))
}

fn is_name_byte(byte: u8) -> bool
    ensures { result ≡ is_ascii_alphanumeric byte }
{
    byte.is_ascii_alphanumeric()
}

fn are_name_bytes(name: &[u8]) -> bool
    ensures { result ≡ list_all is_ascii_alphanumeric name.now }
{
    name.iter().all(|byte| is_name_byte(*byte))
}

#[tactic(auto, unfolding(crate::specs::Values::hold_in, crate::specs::Words::said_in))]
pub fn hold_in(word: &[u8]) -> Option<Hold>
    ensures { result ≡ hold_in word.now }
{
    if is_word(word, b"NO") {
        Some(Hold::No)
    } else if is_word(word, b"YES") {
        Some(Hold::Yes)
    } else if is_word(word, b"CALL") {
        Some(Hold::Call)
    } else {
        None
    }
}

#[tactic(auto, unfolding(crate::specs::Values::retain_in, crate::specs::Words::said_in))]
pub fn retain_in(word: &[u8]) -> Option<Retain>
    ensures { result ≡ retain_in word.now }
{
    if is_word(word, b"NO") {
        Some(Retain::No)
    } else if is_word(word, b"YES") {
        Some(Retain::Yes)
    } else if is_word(word, b"INITIAL") {
        Some(Retain::Initial)
    } else {
        None
    }
}

#[tactic(auto, unfolding(crate::specs::Values::restart_in, crate::specs::Words::said_in))]
pub fn restart_in(word: &[u8]) -> Option<bool>
    ensures { result ≡ restart_in word.now }
{
    if is_word(word, b"YES") {
        Some(true)
    } else if is_word(word, b"NO") {
        Some(false)
    } else {
        None
    }
}

#[tactic(auto, unfolding(crate::specs::Values::disp_in, crate::specs::Words::said_in))]
pub fn disp_in(word: &[u8]) -> Option<Disp>
    ensures { result ≡ disp_in word.now }
{
    if is_word(word, b"NEW") {
        Some(Disp::New)
    } else if is_word(word, b"RPL") {
        Some(Disp::Rpl)
    } else if is_word(word, b"MOD") {
        Some(Disp::Mod)
    } else {
        None
    }
}

/// Whether it says how a source is shared.
#[tactic(auto, unfolding(crate::specs::Values::is_share))]
pub fn is_share(word: &[u8]) -> bool
    ensures { result ≡ is_share word.now }
{
    is_word(word, b"SHR") || is_word(word, b"OLD")
}

#[tactic(auto, unfolding(crate::specs::Values::relation_in, crate::specs::Words::said_in))]
pub fn relation_in(word: &[u8]) -> Option<Relation>
    ensures { result ≡ relation_in word.now }
{
    if is_word(word, b"EQ") {
        Some(Relation::Eq)
    } else if is_word(word, b"NE") {
        Some(Relation::Ne)
    } else if is_word(word, b"GE") {
        Some(Relation::Ge)
    } else if is_word(word, b"GT") {
        Some(Relation::Gt)
    } else if is_word(word, b"LE") {
        Some(Relation::Le)
    } else if is_word(word, b"LT") {
        Some(Relation::Lt)
    } else {
        None
    }
}

/// How many bytes a `K` or an `M` stands for, 0 for another byte.
#[tactic(auto, unfolding(crate::specs::Values::unit_of))]
fn unit_of(byte: u8) -> u64
    ensures exact { result ≡ unit_of byte }
    ensures small { result ≤ 1048576 }
{
    if byte == b'K' || byte == b'k' {
        1024
    } else if byte == b'M' || byte == b'm' {
        1_048_576
    } else {
        0
    }
}

/// The interval of a number of units.
#[tactic(auto, unfolding(crate::specs::Values::units_in))]
fn units_in(digits: &[u8], unit: u64) -> Result<u64, FaultName>
    requires digits { IsTrue (list_all is_ascii_digit digits.now) }
    requires unit { unit ≤ 1048576 }
    ensures { result ≡ taken true (units_in digits.now unit) }
{
    if digits.len() > 10 {
        return Err(FaultName::Range);
    }
    let bytes = number_of(digits) * unit;
    if bytes == 0 || bytes > 1_099_511_627_776 {
        return Err(FaultName::Range);
    }
    Ok(bytes)
}

/// An interval between checkpoints, in bytes; 0 is none.
#[tactic(auto, unfolding(crate::specs::Values::interval_in))]
pub fn interval_in(word: &[u8]) -> Result<u64, FaultName>
    ensures { result ≡ taken true (interval_in word.now) }
{
    if is_word(word, b"NO") || word == b"0".as_slice() {
        return Ok(0);
    }
    if is_digits(word) {
        return Err(FaultName::Range);
    }
    if word.is_empty() {
        return Err(FaultName::Unexpected);
    }
    let last = word.len() - 1;
    let unit = unit_of(word[last]);
    let digits = &word[..last];
    if unit == 0 || !is_digits(digits) {
        return Err(FaultName::Unexpected);
    }
    units_in(digits, unit)
}

/// Whether it is an item of a copy that is accepted.
#[tactic(auto, unfolding(crate::specs::Values::is_item))]
fn is_item(text: &[u8]) -> bool
    ensures { result ≡ is_item text.now }
{
    is_word(text, b"")
        || is_word(text, b"datatype=binary")
        || is_word(text, b"datatype=text")
        || is_word(text, b"xlate=no")
        || is_word(text, b"strip.blanks=no")
}

/// How many bytes stand before the first colon, or all of them.
#[tactic(auto, unfolding(crate::specs::Values::item_len))]
fn item_len(text: &[u8]) -> usize
    ensures exact { result ≡ item_len text.now }
    ensures within { result ≤ length text.now }
{
    let mut len = 0;
    for byte in text {
        if *byte == b':' {
            return len;
        }
        len += 1;
    }
    len
}

/// The text behind the first colon, if there is one, where the item before it is accepted.
#[tactic(auto, using(crate::proofs::Items::items_by))]
fn behind_item(text: &[u8]) -> Option<Option<&[u8]>>
    ensures none { IfNone result (are_items text.now ≡ false) }
    ensures some { IfSome result (λ behind. are_items text.now ≡ are_behind (option_map (λ rest. rest.now) behind)) }
    ensures shorter { IfSome result (λ behind. IfSome behind (λ rest. length rest.now < length text.now)) }
{
    let (item, behind) = text.split_at(item_len(text));
    if !is_item(item) {
        return None;
    }
    match behind.split_first() {
        Some((_, rest)) => Some(Some(rest)),
        None => Some(None),
    }
}

/// Whether a quoted text is a list of such items between colons.
pub fn are_items(text: &[u8]) -> bool
    ensures { result ≡ are_items text.now }
{
    let mut rest = text;
    while let Some(behind) = behind_item(rest) {
        match behind {
            Some(next) => rest = next,
            None => return true,
        }
    }
    false
}

/// Whether a quoted text is a command.
#[tactic(auto, unfolding(crate::specs::Values::is_command))]
pub fn is_command(text: &[u8]) -> bool
    ensures { result ≡ is_command text.now }
{
    !text.is_empty() && text.len() <= LONGEST_TASK
}
