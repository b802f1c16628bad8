//! Tests of the readers of the Process language and of commands. The crates that they call are proved once for it, and not a
//! second time with their tests.
//! A Process has parts within parts, and so have a command and a list of values. What drops them all is laid out at each exit of
//! the function that owns one. So what is tested has it lent, and it is dropped in one place (`closing`).
#![tactic(auto)]

#[cfg(test)]
mod closing;
#[cfg(test)]
mod filing;
#[cfg(test)]
mod hearing;
#[cfg(test)]
mod lexing;
#[cfg(test)]
mod parsing;
#[cfg(test)]
mod printing;
#[cfg(test)]
mod reading;
#[cfg(test)]
mod words;
