//! Tests only. In random sessions, an engine's replies to any commands are those of the plain programs, which answer
//! exactly what the definitions say. Worked sessions have readers, writers and disks that fail. Sessions of lines alone
//! are in tests/sessions.
//!
//! A row of a session is a line and its reply:
//!
//! ```
//! ("elev 0 2", "ERR 22 Failed"),                         // a store that failed answers no question
//! ```
#![tactic(auto)]

#[cfg(test)]
mod answers;
#[cfg(test)]
mod commands;
#[cfg(test)]
mod counting;
#[cfg(test)]
mod examples;
#[cfg(test)]
mod line_tests;
#[cfg(test)]
mod region;
#[cfg(test)]
mod serving_tests;
#[cfg(test)]
mod session;
#[cfg(test)]
mod tests;
