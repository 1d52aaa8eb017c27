//! The program: plays, checks, runs and inspects heaps, as its words ask.
#![tactic(auto)]

#[cfg(test)]
mod tests;

use graph_heap::NoMemory;
use program::run::{run, tell};
use program::{HostFiles, RunFault};
use std::env;
use std::io::{self, ErrorKind, Input};
use std::process::ExitCode;
use trace::{BufferedSink, WriteSink};

/// Returns the words of the command line; the first is the program's name.
fn words_of(rt: &HostRuntime) -> Result<Vec<String>, RunFault> {
    match env::args(rt) {
        Ok(words) => Ok(words.collect(rt.alloc()).map_err(|_| NoMemory)?),
        Err(error) if error.kind() == ErrorKind::OutOfMemory => Err(RunFault::from(NoMemory)),
        Err(_) => {
            let text = format!(in rt.alloc(); "error: a word is not UTF-8").map_err(|_| NoMemory)?;
            Err(RunFault::Words(text))
        }
    }
}

fn main(rt: HostRuntime) -> ExitCode {
    let status = match words_of(&rt) {
        Ok(words) => run(
            &rt,
            rt.alloc(),
            words.as_slice(),
            &HostFiles { host: &rt },
            rt.reader(),
            &mut BufferedSink::new(WriteSink::new(io::writer(&rt))),
            &mut rt.stderr(),
        ),
        Err(fault) => {
            tell(&mut rt.stderr(), &fault);
            fault.status()
        }
    };
    ExitCode::from(status)
}
