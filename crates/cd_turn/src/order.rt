//! What a command asks of the node.
ghost use Rattle.std.specs.Prelude.{◌≡◌, ◌≤◌, ℕ, List, IfOk, IfSome};
ghost use Rattle.cd_commands.specs.declared.command.Command.TheVariants as command;
ghost use Rattle.cd_grammar.specs.Faults.{Says};
ghost use Rattle.cd_commands.specs.Heard.{heard};
ghost use Rattle.cd_input.specs.Scanner.{event_of};
ghost use Rattle.cd_outside.specs.Counts.{Rose};
ghost use Rattle.cd_submission.specs.Reading.{process_in};
ghost use Rattle.cd_submission.specs.Shown.{IsShown};
ghost use Rattle.cd_turn.specs.Order.{are_built, kept_with, submitting, submitted, submitted_from, viewed, drilled, order_for, order_of, file_for, file_of, heard_in, asked_of, IsKept, IsFormed, IsSaid, WasSaid, WasHeard, WasRead};

use cd_ast::{FaultName, Process};
use cd_automaton::law_of_ranges;
use cd_canonical::law_of_readings;
use cd_commands::{Command, Heard, Options, hear, law_of_hearing};
use cd_input::Found;
use cd_outside::Files;
use cd_submission::{
    Shown, Unread, filled, is_push, law_of_filings, look, process_in, with_options,
};
use cd_types::{Bytes, NoMemory, NodeName, Symbols};
use std::alloc::Global;

/// The length that a command may not pass.
const LONGEST: u64 = 70_000;

/// What a command asks of the node, as far as commands are built today.
#[derive(Drop)]
pub enum Order {
    /// The text is no command: it has this fault at this place.
    Wrong(FaultName, u64),
    /// A command that isn't built.
    NotBuilt,
    /// The home gets this name and this number.
    Init(NodeName, u64),
    /// A Process is submitted, and kept in this form.
    Submit(Process),
    /// The Process that a file says is submitted, and isn't of the kind that is built.
    SubmitNotBuilt,
    /// The Process that a file says is submitted, and there is none.
    SubmitUnread(Unread),
    /// The Process that a file says is looked at.
    View(Process),
    /// It is looked at, and there is none.
    ViewUnread(Unread),
    /// A drill of a script was asked for, and reports this.
    Report(Bytes),
    /// A drill was asked for, and there is no script.
    DrillUnread(Unread),
    Stop,
}

/// Whether the options of a submission are built: a partner, a class, and values of names are.
fn are_built(options: &Options) -> bool
    ensures { result ≡ are_built options.now }
{
    options.prty.is_none()
        && options.hold.is_none()
        && options.retain.is_none()
        && options.start.is_none()
}

/// The form in which this Process is kept with these options, where it is of the kind that is built.
fn kept_with(process: Process, options: &Options) -> Option<Process>
    ensures kept { result ≡ kept_with options.now process }
    ensures formed { (text : List ℕ) (overrides : List (List ℕ × List ℕ)) → Says text overrides process → IfSome result IsKept }
{
    law_of_filings();
    law_of_readings();
    law_of_ranges();
    let process = with_options(process, options);
    if is_push(&process, None) {
        Some(filled(process))
    } else {
        None
    }
}

/// A submission of this Process, where there is one.
fn submitting(kept: Option<Process>, if_none: Order) -> Order
    ensures order { result ≡ submitting if_none kept }
    ensures formed { IfSome kept IsKept → IsFormed if_none → IsFormed result }
{
    match kept {
        Some(process) => Order::Submit(process),
        None => if_none,
    }
}

/// A submission of this Process.
fn submitted(process: Process, options: &Options) -> Order
    ensures order { result ≡ submitted options.now process }
    ensures formed { WasSaid process → IsFormed result }
{
    if !are_built(options) {
        return Order::NotBuilt;
    }
    submitting(kept_with(process, options), Order::NotBuilt)
}

/// A submission of the Process that a file says.
fn submitted_from(read: Result<Process, Unread>, options: &Options) -> Order
    ensures order { result ≡ submitted_from options.now read }
    ensures formed { WasRead read → IsFormed result }
{
    match read {
        Ok(process) => submitting(kept_with(process, options), Order::SubmitNotBuilt),
        Err(why) => Order::SubmitUnread(why),
    }
}

/// A look at the Process that a file says.
fn viewed(read: Result<Process, Unread>) -> Order
    ensures order { result ≡ viewed read }
    ensures formed { IsFormed result }
{
    match read {
        Ok(process) => Order::View(process),
        Err(why) => Order::ViewUnread(why),
    }
}

/// The Process that a file says, by what was shown of it.
fn read_from(
    alloc: Global,
    name: Bytes,
    symbols: &Symbols,
    shown: &Shown,
) -> Result<Result<Process, Unread>, NoMemory>
    ensures read { IfOk result (λ read. read ≡ process_in name symbols.now shown.now) }
    ensures said { IfOk result WasRead }
{
    match process_in(alloc, name, symbols, shown) {
        Ok(read) => Ok(read),
        Err(fault) => Err(fault),
    }
}

/// A submission from the file of this name.
fn submitted_file(
    alloc: Global,
    name: Bytes,
    options: &Options,
    shown: &Shown,
) -> Result<Order, NoMemory>
    ensures order { IfOk result (λ order. order ≡ order_for (command.SubmitFile name options.now) shown.now) }
    ensures formed { IfOk result IsFormed }
{
    if !are_built(options) {
        return Ok(Order::NotBuilt);
    }
    match read_from(alloc, name, &options.symbols, shown) {
        Ok(read) => Ok(submitted_from(read, options)),
        Err(fault) => Err(fault),
    }
}

/// A look at the file of this name.
fn viewed_file(
    alloc: Global,
    name: Bytes,
    symbols: &Symbols,
    shown: &Shown,
) -> Result<Order, NoMemory>
    ensures order { IfOk result (λ order. order ≡ order_for (command.View name symbols.now) shown.now) }
    ensures formed { IfOk result IsFormed }
{
    match read_from(alloc, name, symbols, shown) {
        Ok(read) => Ok(viewed(read)),
        Err(fault) => Err(fault),
    }
}

/// A drill of the script of this name.
fn drilled(alloc: Global, name: Bytes, shown: &Shown) -> Result<Order, NoMemory>
    ensures order { IfOk result (λ order. order ≡ drilled name shown.now) }
    ensures formed { IfOk result IsFormed }
{
    match shown {
        Shown::Report(report) => Ok(Order::Report(Bytes::copy_of(alloc, report.as_slice())?)),
        Shown::NoScript(at) => Ok(Order::DrillUnread(Unread::Wrong(FaultName::ScriptText, *at))),
        Shown::Failed => Ok(Order::DrillUnread(Unread::FileFault)),
        Shown::Missing | Shown::Long(_) | Shown::Text(_) => {
            Ok(Order::DrillUnread(Unread::NoFile(name)))
        }
    }
}

/// What a command asks, by what was shown of the file for which it asks.
fn order_for(alloc: Global, command: Command, shown: &Shown) -> Result<Order, NoMemory>
    ensures order { IfOk result (λ order. order ≡ order_for command shown.now) }
    ensures formed { IsSaid command → IfOk result IsFormed }
{
    match command {
        Command::Init(name, home) => {
            let _ = name.as_bytes();
            Ok(Order::Init(name, home))
        }
        Command::SubmitText(process, options) => {
            let order = submitted(process, &options);
            Ok(order)
        }
        Command::SubmitFile(name, options) => {
            match submitted_file(alloc, name, &options, shown) {
                Ok(order) => Ok(order),
                Err(fault) => Err(fault),
            }
        }
        Command::View(name, symbols) => match viewed_file(alloc, name, &symbols, shown) {
            Ok(order) => Ok(order),
            Err(fault) => Err(fault),
        },
        Command::Drill(name) => match drilled(alloc, name, shown) {
            Ok(order) => Ok(order),
            Err(fault) => Err(fault),
        },
        Command::Stop => Ok(Order::Stop),
        _ => Ok(Order::NotBuilt),
    }
}

/// What a command's text says.
fn hear_text(alloc: Global, text: &[u8]) -> Result<Heard, NoMemory>
    ensures heard { IfOk result (λ said. said ≡ heard text.now) }
    ensures said { IfOk result WasHeard }
{
    law_of_hearing();
    match hear(alloc, text) {
        Ok(said) => Ok(said),
        Err(fault) => Err(fault),
    }
}

/// What that says which came to its end in the input. A command that is too long and one that is cut off say none.
pub fn hear_found(alloc: Global, found: &Found) -> Result<Heard, NoMemory>
    ensures heard { IfOk result (λ said. said ≡ heard_in (event_of found.now)) }
    ensures said { IfOk result WasHeard }
{
    match found {
        Found::Command(text) => match hear_text(alloc, text) {
            Ok(said) => Ok(said),
            Err(fault) => Err(fault),
        },
        Found::TooLong => Ok(Heard::Fault(FaultName::TooLong, LONGEST)),
        Found::Unfinished => Ok(Heard::Fault(FaultName::Unfinished, 0)),
    }
}

/// Looks at the file for which a command asks.
fn show_command<F: Files>(
    alloc: Global,
    command: &Command,
    files: &mut F,
) -> Result<Shown, NoMemory>
    ensures shown { F.observable → IfOk result (λ shown. IsShown (asked_of (F.state files.old).shelf.seen (file_for command.now)) shown) }
    ensures failed { IfOk result (λ shown. shown ≡ Shown.Failed → Rose (F.faults files.old) (F.faults files.new)) }
    ensures same { F.observable → F.state files.new ≡ F.state files.old }
    ensures later { F.faults files.old ≤ F.faults files.new }
{
    match command {
        Command::SubmitFile(name, options) if are_built(options) => {
            match look(alloc, files, name.as_slice()) {
                Ok(shown) => Ok(shown),
                Err(fault) => Err(fault),
            }
        }
        Command::View(name, _) => match look(alloc, files, name.as_slice()) {
            Ok(shown) => Ok(shown),
            Err(fault) => Err(fault),
        },
        _ => Ok(Shown::Missing),
    }
}

/// What the files show of the file in which the Process stands for which it asks; where it asks for none, it is as if there were
/// none. The files are changed in nothing, and have failed only where their count rose.
pub fn show_for<F: Files>(alloc: Global, said: &Heard, files: &mut F) -> Result<Shown, NoMemory>
    ensures shown { F.observable → IfOk result (λ shown. IsShown (asked_of (F.state files.old).shelf.seen (file_of said.now)) shown) }
    ensures failed { IfOk result (λ shown. shown ≡ Shown.Failed → Rose (F.faults files.old) (F.faults files.new)) }
    ensures same { F.observable → F.state files.new ≡ F.state files.old }
    ensures later { F.faults files.old ≤ F.faults files.new }
{
    match said {
        Heard::Command(command) => match show_command(alloc, command, files) {
            Ok(shown) => Ok(shown),
            Err(fault) => Err(fault),
        },
        Heard::Fault(..) => Ok(Shown::Missing),
    }
}

/// What it asks of the node, where this was shown of the file for which it asks.
pub fn order_of(alloc: Global, said: Heard, shown: &Shown) -> Result<Order, NoMemory>
    ensures order { IfOk result (λ order. order ≡ order_of said shown.now) }
    ensures formed { WasHeard said → IfOk result IsFormed }
{
    match said {
        Heard::Command(command) => match order_for(alloc, command, shown) {
            Ok(order) => Ok(order),
            Err(fault) => Err(fault),
        },
        Heard::Fault(name, at) => Ok(Order::Wrong(name, at)),
    }
}
