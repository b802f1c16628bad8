//! The one place of each type with parts within parts where a value is dropped.
use cd_ast::{Process, Stmt, print};
use cd_commands::{Command, Options};
use cd_types::{NoMemory, Symbols};
use std::alloc::Global;

pub fn close_process(process: Process) {
    drop(process);
}

pub fn close_statements(statements: Vec<Stmt>) {
    drop(statements);
}

pub fn close_command(command: Command) {
    drop(command);
}

pub fn close_options(options: Options) {
    drop(options);
}

pub fn close_symbols(symbols: Symbols) {
    drop(symbols);
}

/// What is printed of a Process, which nobody needs afterwards.
pub fn print_and_close(alloc: Global, process: Process) -> Result<Vec<u8>, NoMemory> {
    let text = print(alloc, &process);
    close_process(process);
    text
}
