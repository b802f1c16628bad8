//! What is told where a command of a drill isn't done.
ghost use Rattle.std.specs.Prelude.{◌≡◌, ◌++◌, OnOk};
ghost use Rattle.cd_drill.specs.Replies.{fault_word, text_line, refused_line};

use cd_ast::FaultName;
use cd_operator::Refused;
use cd_types::NoMemory;
use std::alloc::Global;

fn fault_word(name: FaultName) -> &'static [u8]
    ensures { result.now ≡ fault_word name }
{
    match name {
        FaultName::TooLong => b"TooLong",
        FaultName::Unresolved => b"Unresolved",
        FaultName::BadByte => b"BadByte",
        FaultName::OpenQuote => b"OpenQuote",
        FaultName::OpenComment => b"OpenComment",
        FaultName::Unexpected => b"Unexpected",
        FaultName::Range => b"Range",
        FaultName::TooMany => b"TooMany",
        FaultName::DoubleLabel => b"DoubleLabel",
        FaultName::NoLabel => b"NoLabel",
        FaultName::Backward => b"Backward",
        FaultName::IntoIf => b"IntoIf",
        FaultName::Unclosed => b"Unclosed",
        FaultName::SameSide => b"SameSide",
        FaultName::RetainStart => b"RetainStart",
        FaultName::Word => b"Word",
        FaultName::Unfinished => b"Unfinished",
        FaultName::ScriptText => b"ScriptText",
    }
}

fn write_text(alloc: Global, word: &[u8], at: u64, into: &mut Vec<u8>) -> Result<(), NoMemory>
    ensures { OnOk result (into.new.items ≡ into.old.items ++ text_line word.now at) }
{
    into.extend_from_slice(b"REFUSED TEXT ")?;
    into.extend_from_slice(word)?;
    let place = format!(in alloc; " {at}\n")?;
    into.extend_from_slice(place.as_bytes())?;
    Ok(())
}

/// The line that is replied where a command is refused.
pub(crate) fn write_refused(
    alloc: Global,
    refused: Refused,
    into: &mut Vec<u8>,
) -> Result<(), NoMemory>
    ensures { OnOk result (into.new.items ≡ into.old.items ++ refused_line refused) }
{
    match refused {
        Refused::Text(name, at) => write_text(alloc, fault_word(name), at, into)?,
        Refused::NotYet => into.extend_from_slice(b"REFUSED NOTYET\n")?,
        Refused::NotHome => into.extend_from_slice(b"REFUSED NOTHOME\n")?,
        Refused::AlreadyHome => into.extend_from_slice(b"REFUSED ALREADYHOME\n")?,
        Refused::NoNode => into.extend_from_slice(b"REFUSED NONODE\n")?,
        Refused::Full => into.extend_from_slice(b"REFUSED FULL 4096\n")?,
        Refused::NumbersSpent => into.extend_from_slice(b"REFUSED NUMBERSSPENT\n")?,
    }
    Ok(())
}
