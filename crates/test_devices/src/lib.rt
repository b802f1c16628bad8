//! Tests of the devices in memory, each call once. `cd_memory` is proved once for it, and not a second time with its tests.
//! A device has fields within fields, and what drops them all is laid out at each exit of the function that owns it. So a
//! test makes a device, lends it to a function with all the calls, and has it dropped in one place (`closing`).
#![tactic(auto)]

#[cfg(test)]
mod closing;
#[cfg(test)]
mod failing;
#[cfg(test)]
mod steady;
