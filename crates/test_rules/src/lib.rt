//! Tests of what is said of journals. The crates that they call are proved once for it, and not a second time with their tests.
//! A book has parts within parts, and so has an entry. What drops them all is laid out at each exit of the function that owns one.
//! So what is tested has them lent, and they are dropped in one place (`closing`).
#![tactic(auto)]

#[cfg(test)]
mod closing;
#[cfg(test)]
mod judging;
#[cfg(test)]
mod statistics;
