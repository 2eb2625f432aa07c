//! The command `xades`: canonical forms of XML documents, and the octets that signatures sign.
#![tactic(auto)]

use std::env;
use std::io::ErrorKind;
use std::process::ExitCode;
use xa_io::{FileShelf, StdSink};
use xades_cli::run;

fn main(rt: HostRuntime) -> ExitCode {
    let mut words = Vec::new(rt.alloc());
    let args = match env::args(&rt) {
        Ok(args) => args,
        Err(error) => {
            return ExitCode::from(if error.kind() == ErrorKind::OutOfMemory {
                11
            } else {
                2
            });
        }
    };
    for word in args.skip(1) {
        if words.push(word).is_err() {
            return ExitCode::from(11);
        }
    }
    let mut shelf = FileShelf::new(&rt);
    let mut out = StdSink::new(rt.stdout());
    let mut err = StdSink::new(rt.stderr());
    let status = run(rt.alloc(), &words, &mut shelf, &mut out, &mut err);
    ExitCode::from(status.number())
}
