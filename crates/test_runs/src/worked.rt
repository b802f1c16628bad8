//! The worked commands, and the bytes that they leave.

/// Names the home.
pub const INIT: &[u8] = b"init name=ALPHA home=17;\n";

/// Submits a Process.
pub const SUBMIT: &[u8] =
    b"submit P1 PROCESS SNODE=BETA\nS1 COPY FROM (FILE=a.txt) TO (FILE=b.txt)\nPEND;\n";

/// Both, and then the run ends.
pub const FIRST: &[u8] =
    b"init name=ALPHA home=17;\nsubmit P1 PROCESS SNODE=BETA\nS1 COPY FROM (FILE=a.txt) TO (FILE=b.txt)\nPEND;\nstop;\n";

/// The Process's text, as a file has it.
pub const FILE: &[u8] = b"P1 PROCESS SNODE=BETA\nS1 COPY FROM (FILE=a.txt) TO (FILE=b.txt)\nPEND\n";

/// Both with the Process in a file, and then the run ends.
pub const FROM_FILE: &[u8] = b"init name=ALPHA home=17;\nsubmit file=p1.cd;\nstop;\n";

/// The body of the entry that names the home, of 15 bytes.
pub const HOME: &[u8] = b"\x01\x05ALPHA\0\0\0\0\0\0\0\x11";

/// The body of the first Process, of 168 bytes, submitted at the moment 1,709,287,200.
pub const SUBMITTED: &[u8] =
    b"\x02\0\0\0\x01\0\0\0\0\x65\xe1\xa7\x20\0\x02P1\x04BETA\x0a\x01\0\0\0\0\0\0\x89P1 PROCESS SNODE=BETA PRTY=10 CLASS=1 HOLD=NO RETAIN=NO\nS1 COPY FROM (FILE=\"a.txt\" PNODE) TO (FILE=\"b.txt\" SNODE DISP=RPL) CKPT=64K\nPEND\n";

/// The journal with the first of the entries: the header, an open gate, the entry's length and body, and a closed gate.
pub const NAMED: &[u8] = b"CDNODE01\x01\0\0\0\x0f\x01\x05ALPHA\0\0\0\0\0\0\0\x11\0";

/// The journal with both, of 202 bytes.
pub const JOURNAL: &[u8] =
    b"CDNODE01\x01\0\0\0\x0f\x01\x05ALPHA\0\0\0\0\0\0\0\x11\x01\0\0\0\xa8\x02\0\0\0\x01\0\0\0\0\x65\xe1\xa7\x20\0\x02P1\x04BETA\x0a\x01\0\0\0\0\0\0\x89P1 PROCESS SNODE=BETA PRTY=10 CLASS=1 HOLD=NO RETAIN=NO\nS1 COPY FROM (FILE=\"a.txt\" PNODE) TO (FILE=\"b.txt\" SNODE DISP=RPL) CKPT=64K\nPEND\n\0";
