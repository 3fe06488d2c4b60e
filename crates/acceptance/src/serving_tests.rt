//! Tests of sessions of lines with readers, writers and disks that fail.

mod script;
mod sessions;
mod stores;
