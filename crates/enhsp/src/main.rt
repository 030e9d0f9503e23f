//! The program: hands its words, the files of the machine and standard output to the top call, and
//! ends with the status that this gives.
#![tactic(auto)]

use edge_io::{RealFiles, RealSink};
use enhsp_run::run_alone;
use std::env;
use std::io::ErrorKind;
use std::process::ExitCode;

/// The status where the words can't be read as text.
const USAGE: u8 = 5;

/// The status where there is no memory for the words.
const NO_MEMORY: u8 = 8;

/// The words after the program's name, or the status to end with.
fn words(rt: &HostRuntime) -> Result<Vec<String>, u8> {
    match env::args(rt) {
        Ok(args) => args.skip(1).collect(rt.alloc()).map_err(|_| NO_MEMORY),
        Err(fault) if fault.kind() == ErrorKind::OutOfMemory => Err(NO_MEMORY),
        Err(_) => Err(USAGE),
    }
}

fn main(rt: HostRuntime) -> ExitCode {
    match words(&rt) {
        Ok(words) => {
            let mut files = RealFiles::new(&rt);
            let mut sink = RealSink::new(rt.stdout());
            let ended = run_alone(rt.alloc(), words.as_slice(), &mut files, &mut sink);
            ExitCode::from(ended.status)
        }
        Err(status) => ExitCode::from(status),
    }
}
