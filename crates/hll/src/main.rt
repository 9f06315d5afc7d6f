//! The program: the words after its name, the system's files and the standard output, and the exit status.
#![tactic(auto)]

use hll_cli::run;
use ports::{FileDesk, OpenGate, OutSink};
use std::alloc::{AllocError, Global};
use std::env;
use std::process::ExitCode;
use std::rt::Env;

/// The exit status for want of memory.
const MEMORY: u8 = 7;

/// The words after the program's name. Where they can't be read as text there are none.
fn words(rt: &(impl Env + Alloc<A = Global>)) -> Result<Vec<String>, AllocError> {
    let mut words = Vec::new(rt.alloc());
    if let Ok(args) = env::args(rt) {
        for word in args.skip(1) {
            words.push(word)?;
        }
    }
    Ok(words)
}

fn main(rt: HostRuntime) -> ExitCode {
    let alloc = rt.alloc();
    match words(&rt) {
        Ok(words) => {
            let mut desk = FileDesk::new(alloc, &rt);
            let mut out = OutSink::new(&rt);
            ExitCode::from(run(&rt, alloc, &words, &mut desk, &mut out, &OpenGate))
        }
        Err(_) => ExitCode::from(MEMORY),
    }
}
