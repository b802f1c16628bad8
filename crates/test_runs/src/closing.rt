//! The one place of each type with parts within parts where a value is dropped.
use cd_journal::Journal;
use cd_memory::{MemoryDisk, MemoryFiles, MemorySink, MemorySource, SteadyDisk, SteadyFiles};

pub fn close_disk(disk: MemoryDisk) {
    drop(disk);
}

pub fn close_files(files: MemoryFiles) {
    drop(files);
}

pub fn close_source(source: MemorySource) {
    drop(source);
}

pub fn close_sink(sink: MemorySink) {
    drop(sink);
}

pub fn close_steady_disk(disk: SteadyDisk) {
    drop(disk);
}

pub fn close_steady_files(files: SteadyFiles) {
    drop(files);
}

pub fn close_journal(journal: Journal) {
    drop(journal);
}
