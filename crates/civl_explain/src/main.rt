//! The program `civl_explain`: standard input to standard output, by the words of the command line.
//!
//! It writes nothing to standard error. The exit code is that of the status, from 0 to 7.
#![tactic(auto)]

use civl_cnf::Bits;
use civl_explain_command::explain_command;
use civl_frontend::Status;
use civl_outside::{RealSink, RealSource};
use civl_portfolio::Prover;
use civl_provers::{Probe, Splitter};
use std::alloc::{AllocError, Global};
use std::env::{self, Env};
use std::io;
use std::process::ExitCode;

/// As many bits as a clause set within the limits can have variables.
const BITS: u32 = 6_400_002;

/// On how many variables the splitter splits.
const DEPTH: u32 = 8;

/// The words after the program's name. Where one of them isn't text there are none, since no command has such a word.
fn words(rt: &(impl Env + AllocGlobal)) -> Result<Vec<String>, Status> {
    let mut all = match env::args(rt) {
        Ok(all) => all,
        Err(error) => {
            return if error.kind() == io::ErrorKind::OutOfMemory {
                Err(Status::Memory)
            } else {
                Ok(Vec::new(rt.alloc()))
            };
        }
    };
    let _name = all.next();
    match all.collect(rt.alloc()) {
        Ok(words) => Ok(words),
        Err(_) => Err(Status::Memory),
    }
}

/// The prover whose one try is that all bits are false.
fn probe(alloc: Global) -> Result<Probe, AllocError> {
    let Ok(bits) = Bits::new(alloc, BITS) else {
        return Err(AllocError);
    };
    let mut tries = Vec::new(alloc);
    tries.push(bits)?;
    Ok(Probe::new(tries))
}

/// The command of the words, with two provers that are asked before the search.
fn answer(
    rt: &(impl AllocGlobal + Input + Print),
    words: &Vec<String>,
) -> Result<Status, AllocError> {
    let alloc = rt.alloc();
    let mut provers: Vec<Box<dyn Prover>> = Vec::new(alloc);
    provers.push(Box::new(alloc, probe(alloc)?)?)?;
    provers.push(Box::new(alloc, Splitter::new(DEPTH))?)?;
    let mut source = RealSource::new(rt.reader());
    let mut sink = RealSink::new(io::writer(rt));
    Ok(explain_command(alloc, words, &mut source, &mut sink, &mut provers))
}

fn run(rt: &(impl Env + AllocGlobal + Input + Print)) -> Status {
    match words(rt) {
        Err(status) => status,
        Ok(words) => match answer(rt, &words) {
            Ok(status) => status,
            Err(AllocError) => Status::Memory,
        },
    }
}

fn main(rt: HostRuntime) -> ExitCode {
    ExitCode::from(run(&rt).code())
}
