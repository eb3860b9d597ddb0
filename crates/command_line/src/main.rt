//! `balsadbg`, the program: a causal-consistent reversible debugger for Balsa.
#![tactic(auto)]

mod adapter;
mod disk;
mod program;
mod shells;

use debug_session::{Counted, Fault};
use disk::Disk;
use file_answers::write_fault;
use program::run;
use std::io::{BufReader, ErrorKind, Stdin, Write};
use std::process::ExitCode;
use std::{env, io};

/// What the system gives to a run: its words and its standard input.
struct Given {
    words: Vec<String>,
    reader: Counted<BufReader<Stdin>>,
}

impl Given {
    fn by(rt: &HostRuntime) -> io::Result<Given> {
        Ok(Given {
            words: env::args(rt)?.collect(rt.alloc())?,
            reader: Counted::new(BufReader::new(rt.alloc(), rt.stdin())?),
        })
    }
}

fn main(rt: HostRuntime) -> ExitCode {
    let mut out = Counted::new(rt.stdout());
    let mut err = Counted::new(rt.stderr());
    match Given::by(&rt) {
        Ok(Given { words, mut reader }) => {
            let files = Disk::new(&rt);
            let status = run(
                &rt,
                words.as_slice(),
                &files,
                &mut reader,
                &mut out,
                &mut err,
            );
            ExitCode::from(status)
        }
        Err(error) if error.kind() == ErrorKind::InvalidData => {
            let _ = err.write_all(b"error: the command line is no text in UTF-8\n");
            ExitCode::from(2)
        }
        Err(_) => {
            let _ = write_fault(Fault::Memory, &mut err);
            ExitCode::from(1)
        }
    }
}
