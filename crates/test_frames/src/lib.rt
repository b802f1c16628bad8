//! Tests of frames, against fixed bytes. `cd_frames` is proved once for it, and not a second time with its tests.
#![tactic(auto)]

#[cfg(test)]
mod frames;
