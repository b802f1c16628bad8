//! The one place of each kind of device where it is dropped.
use cd_memory::{
    MemoryDisk, MemoryFiles, MemoryLines, MemorySink, MemorySource, MemorySpawner, SteadyDisk,
    SteadyFiles, SteadyLines, SteadySink, SteadySource, SteadySpawner,
};

pub fn close_disk(disk: MemoryDisk) {
    drop(disk);
}

pub fn close_files(files: MemoryFiles) {
    drop(files);
}

pub fn close_lines(lines: MemoryLines) {
    drop(lines);
}

pub fn close_spawner(spawner: MemorySpawner) {
    drop(spawner);
}

pub fn close_source(source: MemorySource) {
    drop(source);
}

pub fn close_sink(sink: MemorySink) {
    drop(sink);
}

pub fn close_steady_disk(disk: SteadyDisk) {
    drop(disk);
}

pub fn close_steady_files(files: SteadyFiles) {
    drop(files);
}

pub fn close_steady_lines(lines: SteadyLines) {
    drop(lines);
}

pub fn close_steady_spawner(spawner: SteadySpawner) {
    drop(spawner);
}

pub fn close_steady_source(source: SteadySource) {
    drop(source);
}

pub fn close_steady_sink(sink: SteadySink) {
    drop(sink);
}
