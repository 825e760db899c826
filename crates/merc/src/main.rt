//! `merc`: the command over the system's files, input and output.
#![tactic(auto)]

mod real;

use mc_cmd::{Status, merc, status_code};
use real::{RealFiles, RealSink, RealSource};
use std::alloc::AllocError;
use std::env;
use std::io::ErrorKind;
use std::process::ExitCode;

/// The words of the command line. A word that isn't UTF-8 is of no command, so there are none where one stands.
fn words(rt: &HostRuntime) -> Result<Vec<String>, AllocError> {
    let mut words = Vec::new(rt.alloc());
    match env::args(rt) {
        Ok(all) => {
            for word in all {
                words.push(word)?;
            }
        }
        Err(fault) if fault.kind() == ErrorKind::InvalidData => {}
        Err(_) => return Err(AllocError),
    }
    Ok(words)
}

fn main(rt: HostRuntime) -> ExitCode {
    let alloc = rt.alloc();
    let Ok(words) = words(&rt) else {
        return ExitCode::from(status_code(Status::Memory));
    };
    let mut files = RealFiles::new(rt);
    let mut input = RealSource::new(rt.stdin());
    let mut out = RealSink::new(rt.stdout());
    let mut err = RealSink::new(rt.stderr());
    let status = merc(alloc, &words, &mut files, &mut input, &mut out, &mut err);
    ExitCode::from(status_code(status))
}
