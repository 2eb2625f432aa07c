//! Files in memory, and commands that are run over them.

use std::alloc::Global;
use std::test::Fail;
use xa_io::{MemShelf, MemSink, Octs};
use xades_cli::run;

/// The files, by their names; of equal names the last counts.
#[derive(Drop)]
pub(crate) struct Desk {
    alloc: Global,
    files: Vec<(&'static str, Octs)>,
}

/// How a command ended: the number of its status, what it gave out, and its line.
#[derive(Drop)]
pub(crate) struct Ran {
    pub(crate) status: u8,
    pub(crate) out: MemSink,
    pub(crate) err: MemSink,
}

/// A copy of octets.
pub(crate) fn copied(alloc: Global, octets: &[u8]) -> Result<Octs, Fail> {
    let mut out = Octs::new(alloc);
    out.push_all(octets)?;
    Ok(out)
}

fn spelled(alloc: Global, words: &[&str]) -> Result<Vec<String>, Fail> {
    let mut spelled = Vec::new(alloc);
    for word in words {
        spelled.push(String::from_str(alloc, word)?)?;
    }
    Ok(spelled)
}

impl Desk {
    pub(crate) fn new(alloc: Global) -> Desk {
        Desk {
            alloc,
            files: Vec::new(alloc),
        }
    }

    pub(crate) fn put(&mut self, name: &'static str, octets: Octs) -> Result<(), Fail> {
        self.files.push((name, octets))?;
        Ok(())
    }

    /// The octets of a file.
    pub(crate) fn file(&self, name: &str) -> Result<&[u8], Fail> {
        for file in self.files.iter().rev() {
            if file.0.as_bytes() == name.as_bytes() {
                return Ok(file.1.as_slice());
            }
        }
        Err(Fail::new("no such file"))
    }

    fn shelf(&self) -> Result<MemShelf, Fail> {
        let mut shelf = MemShelf::new(self.alloc, 10_000);
        for file in &self.files {
            shelf.add(file.0, file.1.as_slice())?;
        }
        Ok(shelf)
    }

    /// Runs a command.
    pub(crate) fn run(&self, words: &[&str]) -> Result<Ran, Fail> {
        let words = spelled(self.alloc, words)?;
        let mut shelf = self.shelf()?;
        let mut out = MemSink::new(self.alloc, 100_000)?;
        let mut err = MemSink::new(self.alloc, 100)?;
        let status = run(self.alloc, &words, &mut shelf, &mut out, &mut err);
        Ok(Ran {
            status: status.number(),
            out,
            err,
        })
    }

    /// Runs a command that is carried out, and keeps what it gives as a file.
    pub(crate) fn keep(&mut self, name: &'static str, words: &[&str]) -> Result<(), Fail> {
        let ran = self.run(words)?;
        if ran.status != 0 || !ran.err.as_slice().is_empty() {
            return Err(Fail::new("not carried out"));
        }
        let octets = copied(self.alloc, ran.out.as_slice())?;
        self.put(name, octets)
    }
}
