//! The program `civl_lift`: standard input to standard output, by the words of the command line.
//!
//! It writes nothing to standard error. The exit code is that of the status, from 0 to 7.
#![tactic(auto)]

use civl_lift_command::{Status, lift_command};
use civl_outside::{RealSink, RealSource};
use std::env::{self, Env};
use std::io;
use std::process::ExitCode;

/// The words after the program's name. Where one of them isn't text there are none, since no command has such a word.
fn words(rt: &(impl Env + AllocGlobal)) -> Result<Vec<String>, Status> {
    let mut all = match env::args(rt) {
        Ok(all) => all,
        Err(error) => {
            return if error.kind() == io::ErrorKind::OutOfMemory {
                Err(Status::Memory)
            } else {
                Ok(Vec::new(rt.alloc()))
            };
        }
    };
    let _name = all.next();
    match all.collect(rt.alloc()) {
        Ok(words) => Ok(words),
        Err(_) => Err(Status::Memory),
    }
}

fn run(rt: &(impl Env + AllocGlobal + Input + Print)) -> Status {
    match words(rt) {
        Err(status) => status,
        Ok(words) => {
            let mut source = RealSource::new(rt.reader());
            let mut sink = RealSink::new(io::writer(rt));
            lift_command(rt.alloc(), &words, &mut source, &mut sink)
        }
    }
}

fn main(rt: HostRuntime) -> ExitCode {
    ExitCode::from(run(&rt).code())
}
