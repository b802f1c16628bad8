//! Bytes of frames.

/// ALPHA, home 1, opens a session: version 1, blocks of 8,192 bytes.
pub const HELLO: &[u8] = b"\0\0\0\x14\x01\x05ALPHA\0\0\0\0\0\0\0\x01\x01\0\0\x20\0";

/// BETA, home 2, takes it.
pub const WELCOME: &[u8] = b"\0\0\0\x12\x02\x04BETA\0\0\0\0\0\0\0\x02\0\0\x20\0";

/// The first step of ALPHA's Process 1 copies 300 bytes to `b.txt`, in place of what is there, with marks each 65,536 bytes.
pub const STEP: &[u8] =
    b"\0\0\0\x2d\x04\x05ALPHA\0\0\0\0\0\0\0\x01\0\0\0\x01\0\0\0\x05b.txt\x01\0\0\0\0\0\x01\0\0\0\0\0\0\0\0\x01\x2c";

/// BETA waits for the bytes of that step from the first one on.
pub const READY: &[u8] = b"\0\0\0\x1d\x08\x05ALPHA\0\0\0\0\0\0\0\x01\0\0\0\x01\0\0\0\0\0\0\0\0\0\0";

/// All bytes of that step were sent.
pub const END: &[u8] =
    b"\0\0\0\x1d\x0c\x05ALPHA\0\0\0\0\0\0\0\x01\0\0\0\x01\0\0\0\0\0\0\0\0\x01\x2c";

/// So many bytes of that step came: none.
pub const ACK: &[u8] = b"\0\0\0\x1d\x0b\x05ALPHA\0\0\0\0\0\0\0\x01\0\0\0\x01\0\0\0\0\0\0\0\0\0\0";

/// BETA has trouble with that step.
pub const TROUBLE: &[u8] = b"\0\0\0\x16\x0e\x05ALPHA\0\0\0\0\0\0\0\x01\0\0\0\x01\0\0\x0f";

/// A length that no frame has.
pub const NO_FRAME: &[u8] = b"\xff\xff\xff\xff";
