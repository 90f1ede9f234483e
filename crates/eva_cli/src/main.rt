//! The program `eva`: `run_eva` over a real file and standard output.
//!
//! The two adapters are the edge that is trusted: they meet the contracts of `Source` and `Sink`, which say nothing of
//! what a real file holds. Everything else is `eva_front`'s.
#![tactic(auto)]

mod adapters;

use adapters::{FileSource, WriterSink};
use eva_front::{Sink, Status, run_eva};
use std::process::ExitCode;
use std::{env, io, iter};

/// The words behind the program's name. Words that aren't text count as no words.
fn read_words(rt: &HostRuntime) -> Result<Vec<String>, Status> {
    match env::args(rt) {
        Ok(args) => match args.skip(1).collect(rt.alloc()) {
            Ok(words) => Ok(words),
            Err(_) => Err(Status::OutOfMemory),
        },
        Err(error) if error.kind() == io::ErrorKind::OutOfMemory => Err(Status::OutOfMemory),
        Err(_) => Ok(Vec::new(rt.alloc())),
    }
}

fn main(rt: HostRuntime) -> ExitCode {
    let mut source = FileSource::new(&rt);
    let mut sink = WriterSink::new(io::writer(&rt));
    let status = match read_words(&rt) {
        Ok(words) => run_eva(rt.alloc(), words.as_slice(), &mut source, &mut sink),
        Err(status) => {
            let _ = sink.put(b"out of memory\n");
            status.code()
        }
    };
    ExitCode::from(status)
}
