//! The program `mosaic`: it passes its words, its streams and the system's files to the server.
#![tactic(auto)]

#[cfg(test)]
mod tests;

use disk::Files;
use server::{CheckedWriter, FilePlaces};
use std::marker::Brand;
use std::process::ExitCode;
use std::{env, io};

fn main(rt: HostRuntime) -> ExitCode {
    let mut reader = rt.reader();
    let mut writer = CheckedWriter::new(io::writer(&rt));
    let mut places = FilePlaces::<Brand>::new(Files::new(&rt));
    let status = match server::words(rt.alloc(), env::args(&rt)) {
        Ok(words) => server::program(rt.alloc(), &mut places, &words, &mut reader, &mut writer),
        Err(_) => server::no_room(&mut writer),
    };
    ExitCode::from(status)
}
