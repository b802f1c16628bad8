use std::io;

/// Writes one line to standard error for an error that an adapter counts: the device, the name, and the system's reason.
/// Where standard error doesn't take it, nothing more is done.
pub fn report(rt: &HostRuntime, device: &str, name: &[u8], why: io::Error) {
    let _ = rt.eprintln(format_args!("{device} {}: {why}", name.escape_ascii()));
}

/// The reason of a changing call at the greatest beat.
pub fn no_beat() -> io::Error {
    io::Error::other("the count of changes is at its end")
}
