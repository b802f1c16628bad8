//! The line that ends a run.
ghost use Rattle.std.specs.Prelude.{◌≡◌, ◌≤◌, ◌∷◌, ◌++◌, [], codes, OnOk, OnErr};
ghost use Rattle.std.specs.Fmt.{decimal};
ghost use Rattle.cd_outside.specs.Counts.{Rose};
ghost use Rattle.cd_outside.specs.Streams.{TookFront};
ghost use Rattle.cd_cli.specs.Run.{TookLine};
ghost use Rattle.cd_turn.specs.Status.{last_line};

use cd_outside::{Failed, Sink};
use cd_turn::Status;
use itoa::Buffer;

// Writes a name and a number, in a line.
fn write_numbered<O: Sink>(name: &[u8], number: u64, out: &mut O) -> Result<(), Failed>
    ensures ok { O.observable → OnOk result (O.taken out.new ≡ O.taken out.old ++ (name.now ++ (decimal number ++ 10 ∷ []))) }
    ensures front { O.observable → OnErr result (TookFront (O.taken out.old) (name.now ++ (decimal number ++ 10 ∷ [])) (O.taken out.new)) }
    ensures later { O.faults out.old ≤ O.faults out.new }
    ensures cause { OnErr result (Rose (O.faults out.old) (O.faults out.new)) }
{
    let mut buffer = Buffer::new();
    let digits = buffer.format(number);
    out.write(name)?;
    out.write(digits.as_bytes())?;
    out.write(b"\n")?;
    Ok(())
}

// Writes the line of the status.
fn write_line<O: Sink>(status: Status, out: &mut O) -> Result<(), Failed>
    ensures ok { O.observable → OnOk result (O.taken out.new ≡ O.taken out.old ++ last_line status) }
    ensures front { O.observable → OnErr result (TookFront (O.taken out.old) (last_line status) (O.taken out.new)) }
    ensures later { O.faults out.old ≤ O.faults out.new }
    ensures cause { OnErr result (Rose (O.faults out.old) (O.faults out.new)) }
{
    match status {
        Status::Done | Status::Refused | Status::SinkFault => Ok(()),
        Status::Usage => out.write(b"USAGE cdnode [--echo] [--max-turns N]\n"),
        Status::Unfit(at) => write_numbered(b"UNFIT ", at, out),
        Status::DiskFault => out.write(b"DISK FAULT\n"),
        Status::JournalFull(len) => write_numbered(b"JOURNAL FULL ", len, out),
        Status::SourceFault => out.write(b"INPUT FAULT\n"),
        Status::InputLimit => out.write(b"INPUT LIMIT\n"),
        Status::NoMemory => out.write(b"NO MEMORY\n"),
    }
}

/// Writes the line that ends a run, which takes no memory. Where that fails, the status stands.
pub(crate) fn tell_last<O: Sink>(status: Status, out: &mut O)
    ensures taken { O.observable → TookLine (Rose (O.faults out.old) (O.faults out.new)) (O.taken out.old) (last_line status) (O.taken out.new) }
    ensures later { O.faults out.old ≤ O.faults out.new }
{
    let _ = write_line(status, out);
}
