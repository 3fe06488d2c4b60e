//! A read-only store in a tool's process: the functions that C calls, and through it numpy and R.
//!
//! `include/mosaic.h` says what each function does, and what callers have to ensure. The crate `windows` has the
//! answers about windows and tiles, with their tests. This crate has the handle, and one export for each function.
#![tactic(auto)]

mod exports;
mod handle;
mod session;
