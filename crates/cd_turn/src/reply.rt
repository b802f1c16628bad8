//! What the node answers to a command.
ghost use Rattle.std.specs.Prelude.{◌≡◌, IfOk};
ghost use Rattle.cd_turn.specs.Reply.{reply_text, fault_word, refusal_text, is_refused};

use cd_ast::FaultName;
use cd_types::{Bytes, NoMemory, NodeName, ProcNo};
use std::alloc::Global;

/// Why a command wasn't done. It then changed nothing.
#[derive(Debug, Drop)]
pub enum Refusal {
    /// Its text, or the text of its Process, has this fault at this place.
    Text(FaultName, u64),
    /// It is no command that is built.
    NotYet,
    /// The home has no name yet, and the command needs one.
    NotHome,
    /// The home has a name already.
    AlreadyHome,
    /// There is no file of this name.
    NoFile(Bytes),
    /// The files failed.
    FileFault,
    /// Neither the Process nor the command names a partner.
    NoNode,
    /// There are as many live Processes as there may be, which is this many.
    Full(u32),
}

/// The answer to a command. Each is printed as a line, but for a canonical text and a report, which have their own.
#[derive(Debug, Drop)]
pub enum Reply {
    /// The home has this name and this number from now on.
    Home(NodeName, u64),
    /// The Process was submitted, and has this number for good.
    Submitted(ProcNo),
    /// A Process has this canonical text.
    Viewed(Bytes),
    /// A drill reports this.
    Reported(Bytes),
    /// The run ends.
    Stopped,
    /// The command wasn't done.
    Refused(Refusal),
}

fn home_text(alloc: Global, name: NodeName, home: u64) -> Result<Vec<u8>, NoMemory>
    ensures { IfOk result (λ text. text.items ≡ reply_text (Reply.Home name home)) }
{
    let tail = format!(in alloc; " {home}\n")?;
    let mut text = Vec::from_slice(alloc, b"HOME ")?;
    text.extend_from_slice(name.as_bytes())?;
    text.extend_from_slice(tail.as_bytes())?;
    Ok(text)
}

/// How a fault is called.
#[tactic(auto, unfolding(crate::specs::Reply::fault_word))]
fn fault_word(name: FaultName) -> &'static str
    ensures { result.now ≡ fault_word name }
{
    match name {
        FaultName::TooLong => "TooLong",
        FaultName::Unresolved => "Unresolved",
        FaultName::BadByte => "BadByte",
        FaultName::OpenQuote => "OpenQuote",
        FaultName::OpenComment => "OpenComment",
        FaultName::Unexpected => "Unexpected",
        FaultName::Range => "Range",
        FaultName::TooMany => "TooMany",
        FaultName::DoubleLabel => "DoubleLabel",
        FaultName::NoLabel => "NoLabel",
        FaultName::Backward => "Backward",
        FaultName::IntoIf => "IntoIf",
        FaultName::Unclosed => "Unclosed",
        FaultName::SameSide => "SameSide",
        FaultName::RetainStart => "RetainStart",
        FaultName::Word => "Word",
        FaultName::Unfinished => "Unfinished",
        FaultName::ScriptText => "ScriptText",
    }
}

fn fault_text(alloc: Global, name: FaultName, at: u64) -> Result<Vec<u8>, NoMemory>
    ensures { IfOk result (λ text. text.items ≡ refusal_text (Refusal.Text name at)) }
{
    let word = fault_word(name);
    let text = format!(in alloc; "TEXT {word} {at}")?;
    Ok(Vec::from_slice(alloc, text.as_bytes())?)
}

fn no_file_text(alloc: Global, name: &[u8]) -> Result<Vec<u8>, NoMemory>
    ensures { IfOk result (λ text. text.items ≡ refusal_text (Refusal.NoFile name.now)) }
{
    let mut text = Vec::from_slice(alloc, b"NOFILE ")?;
    text.extend_from_slice(name)?;
    Ok(text)
}

fn full_text(alloc: Global, most: u32) -> Result<Vec<u8>, NoMemory>
    ensures { IfOk result (λ text. text.items ≡ refusal_text (Refusal.Full most)) }
{
    let text = format!(in alloc; "FULL {most}")?;
    Ok(Vec::from_slice(alloc, text.as_bytes())?)
}

impl Refusal {
    fn text(&self, alloc: Global) -> Result<Vec<u8>, NoMemory>
        ensures { IfOk result (λ text. text.items ≡ refusal_text self.now) }
    {
        match self {
            Refusal::Text(name, at) => fault_text(alloc, *name, *at),
            Refusal::NoFile(name) => no_file_text(alloc, name.as_slice()),
            Refusal::FileFault => Ok(Vec::from_slice(alloc, b"FILEFAULT")?),
            Refusal::NoNode => Ok(Vec::from_slice(alloc, b"NONODE")?),
            Refusal::NotYet => Ok(Vec::from_slice(alloc, b"NOTYET")?),
            Refusal::NotHome => Ok(Vec::from_slice(alloc, b"NOTHOME")?),
            Refusal::AlreadyHome => Ok(Vec::from_slice(alloc, b"ALREADYHOME")?),
            Refusal::Full(most) => full_text(alloc, *most),
        }
    }
}

fn refused_text(alloc: Global, refusal: &Refusal) -> Result<Vec<u8>, NoMemory>
    ensures { IfOk result (λ text. text.items ≡ reply_text (Reply.Refused refusal.now)) }
{
    let why = refusal.text(alloc)?;
    let mut text = Vec::from_slice(alloc, b"REFUSED ")?;
    text.extend_from_slice(&why)?;
    text.push(b'\n')?;
    Ok(text)
}

fn submitted_text(alloc: Global, number: u32) -> Result<Vec<u8>, NoMemory>
    ensures { IfOk result (λ text. text.items ≡ reply_text (Reply.Submitted number)) }
{
    let text = format!(in alloc; "PROCESS {number} SUBMITTED\n")?;
    Ok(Vec::from_slice(alloc, text.as_bytes())?)
}

impl Reply {
    /// Its line, or its lines.
    pub fn text(&self, alloc: Global) -> Result<Vec<u8>, NoMemory>
        ensures { IfOk result (λ text. text.items ≡ reply_text self.now) }
    {
        match self {
            Reply::Home(name, home) => home_text(alloc, *name, *home),
            Reply::Submitted(number) => submitted_text(alloc, number.number()),
            Reply::Viewed(text) | Reply::Reported(text) => {
                Ok(Vec::from_slice(alloc, text.as_slice())?)
            }
            Reply::Stopped => Ok(Vec::from_slice(alloc, b"STOPPED\n")?),
            Reply::Refused(refusal) => refused_text(alloc, refusal),
        }
    }

    /// The command was refused.
    pub fn is_refused(&self) -> bool
        ensures { result ≡ is_refused self.now }
    {
        match self {
            Reply::Refused(_) => true,
            _ => false,
        }
    }
}
