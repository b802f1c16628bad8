//! How the program ends. A test can't start the program, so it starts the test program again, which then runs one test
//! that does what `main` does and gives the same status.
use crate::run;
use crate::tests::enter;
use std::fs::File;
use std::path::PathBuf;
use std::process::{Command, ExitCode, Output, Stdio};
use std::test::Fail;
use std::{env, fs, io};

#[test]
fn program(rt: HostRuntime) -> ExitCode {
    ExitCode::from(run(rt, &[]).code())
}

#[test]
fn program_with_words(rt: HostRuntime) -> ExitCode {
    match run(rt, &["--help"]).code() {
        1 => ExitCode::SUCCESS,
        _ => ExitCode::FAILURE,
    }
}

// What the test program writes where the test `program` gives this status.
fn is_status(output: &Output, status: u8) -> bool {
    let told: &[u8] = match status {
        0 => b"",
        2 => b"status 2\n",
        6 => b"status 6\n",
        7 => b"status 7\n",
        9 => b"status 9\n",
        _ => return false,
    };
    output.status.success() == (status == 0) && output.stderr.ends_with(told)
}

// The path of the test program.
fn this_program(rt: &HostRuntime) -> io::Result<PathBuf> {
    match env::args(rt)?.next() {
        Some(path) => fs::canonicalize(rt, path.as_str()),
        None => Err(io::Error::from(io::ErrorKind::NotFound)),
    }
}

// Runs it as the program, on this input in the current folder.
fn run_program<T: Into<Stdio> + Drop>(
    rt: &HostRuntime,
    this: &PathBuf,
    input: T,
) -> io::Result<Output> {
    let mut command = Command::new(rt.alloc(), this.as_str())?;
    command.arg("exits::program")?;
    command.stdin(input);
    command.output(rt)
}

#[test]
fn program_ends_with_its_status(rt: HostRuntime) -> Result<(), Fail> {
    let this = this_program(&rt)?;
    enter(&rt, "program_ends")?;
    for (input, status) in [
        ("foo;", 2),
        ("init name=ALPHA home=17;", 0),
        ("stop;", 0),
        ("init name=ALPHA home=17;", 2),
    ] {
        fs::write(&rt, "input", input)?;
        let output = run_program(&rt, &this, File::open(&rt, "input")?)?;
        assert!(rt; is_status(&output, status), "at {input}: {output:?}");
    }
    let output = run_program(&rt, &this, File::open(&rt, ".")?)?;
    assert!(rt; is_status(&output, 9));
    let held = File::open(&rt, "journal")?;
    held.lock_shared()?;
    let output = run_program(&rt, &this, Stdio::null())?;
    assert!(rt; is_status(&output, 7));
    drop(held);
    fs::write(&rt, "journal", "CDNODE01\u{1}")?;
    let output = run_program(&rt, &this, Stdio::null())?;
    assert!(rt; is_status(&output, 6));
    Ok(())
}
