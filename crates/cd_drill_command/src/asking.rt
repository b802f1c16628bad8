//! What a command is shown.
ghost use Rattle.std.specs.Prelude.{◌≡◌, ◌≤◌, IfOk};
ghost use Rattle.std.specs.Option.{option_map};
ghost use Rattle.cd_outside.specs.Counts.{Rose};
ghost use Rattle.cd_drill_command.specs.Asked.{script_for, script_of, IsDrilled, Shows};

use crate::script::{Script, drilled, read_script};
use cd_commands::{Command, Heard};
use cd_outside::Files;
use cd_submission::Shown;
use cd_turn::show_for as show_process;
use cd_types::{Bytes, NoMemory};
use std::alloc::Global;

/// Drills the script that a file holds.
fn drill_file<F: Files>(alloc: Global, files: &mut F, name: &[u8]) -> Result<Shown, NoMemory>
    ensures shown { IfOk result (IsDrilled F.observable ((F.state files.old).shelf.seen name.now)) }
    ensures failed { IfOk result (λ shown. shown ≡ Shown.Failed → Rose (F.faults files.old) (F.faults files.new)) }
    ensures same { F.observable → F.state files.new ≡ F.state files.old }
    ensures later { F.faults files.old ≤ F.faults files.new }
{
    match read_script(alloc, files, name) {
        Ok(Script::Missing) => Ok(Shown::Missing),
        Ok(Script::Failed) => Ok(Shown::Failed),
        Ok(Script::Text(script)) => match drilled(alloc, script.as_slice()) {
            Ok(shown) => Ok(shown),
            Err(fault) => Err(fault),
        },
        Err(fault) => Err(fault),
    }
}

/// The file of the script that a command drills.
fn script_for(command: &Command) -> Option<&Bytes>
    ensures { option_map (λ name. name.now) result ≡ script_for command.now }
{
    match command {
        Command::Drill(name) => Some(name),
        _ => None,
    }
}

/// The file of the script that is drilled.
fn script_of(said: &Heard) -> Option<&Bytes>
    ensures { option_map (λ name. name.now) result ≡ script_of said.now }
{
    match said {
        Heard::Command(command) => script_for(command),
        Heard::Fault(..) => None,
    }
}

/// What is shown of the file for which it asks: of a Process file what the files hold of it, and of the script of a drill, which is
/// read whole, what the drill comes to. Where it asks for no file, it is as if there were none. The files are changed in nothing, and
/// have failed only where their count rose.
pub fn show_for<F: Files>(alloc: Global, said: &Heard, files: &mut F) -> Result<Shown, NoMemory>
    ensures shown { IfOk result (Shows F.observable (F.state files.old).shelf.seen said.now) }
    ensures failed { IfOk result (λ shown. shown ≡ Shown.Failed → Rose (F.faults files.old) (F.faults files.new)) }
    ensures same { F.observable → F.state files.new ≡ F.state files.old }
    ensures later { F.faults files.old ≤ F.faults files.new }
{
    match script_of(said) {
        Some(name) => match drill_file(alloc, files, name.as_slice()) {
            Ok(shown) => Ok(shown),
            Err(fault) => Err(fault),
        },
        None => match show_process(alloc, said, files) {
            Ok(shown) => Ok(shown),
            Err(fault) => Err(fault),
        },
    }
}
