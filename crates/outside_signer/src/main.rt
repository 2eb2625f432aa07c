//! Keys outside of `xades`, of a made-up world: a certificate authority, a signer, and authorities that stamp. It writes what they give, as
//! files that `xades` takes. Each one-time key is one of a fixed place, so nobody may trust what these keys sign.
//!
//! - `policy`: a policy that trusts the certificate authority and lists the signer's method, `urn:sample:hss`.
//! - `certificate`: the signer's certificate, of the years 2030 to 2039.
//! - `value FILE`: the signer's value over the octets of a file.
//! - `token K FILE T`: a time-stamp token of authority K, from 1 to 4, over the octets of a file, of the time T.
//! - `lists`: the certificate authority's revocation list of those years.
#![tactic(auto)]

mod failed;
mod files;
mod making;
mod world;

use failed::Failed;
use std::alloc::Global;
use std::env;
use std::process::ExitCode;
use xa_io::{FileShelf, Octs, Sink, StdSink};

// What the words ask for.
fn asked<S: xa_io::Shelf>(alloc: Global, words: &[String], shelf: &mut S) -> Result<Octs, Failed> {
    match words {
        [kind] => making::object(alloc, kind.as_str()),
        [_, file] => {
            let octets = files::read(alloc, shelf, file.as_str())?;
            making::value(alloc, octets.as_slice())
        }
        [_, authority, file, time] => {
            let octets = files::read(alloc, shelf, file.as_str())?;
            making::token(alloc, authority.as_str(), octets.as_slice(), time.as_str())
        }
        _ => Err(Failed),
    }
}

fn main(rt: HostRuntime) -> ExitCode {
    let mut words = Vec::new(rt.alloc());
    let Ok(args) = env::args(&rt) else {
        return ExitCode::from(1);
    };
    for word in args.skip(1) {
        if words.push(word).is_err() {
            return ExitCode::from(1);
        }
    }
    let mut shelf = FileShelf::new(&rt);
    let mut out = StdSink::new(rt.stdout());
    match asked(rt.alloc(), words.as_slice(), &mut shelf) {
        Ok(octets) => match out.put(octets.as_slice()) {
            Ok(()) => ExitCode::from(0),
            Err(_) => ExitCode::from(1),
        },
        Err(Failed) => ExitCode::from(1),
    }
}
