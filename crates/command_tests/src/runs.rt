//! Runs over files in memory, and what they come to.

ghost use Rattle.std.specs.Prelude.{◌<◌};

use std::test::Fail;
use xa_io::{MemShelf, MemSink};
use xades_cli::run;

// What a run came to: its number, and what the sinks were given.
#[derive(Drop)]
pub struct Answer {
    pub number: u8,
    pub out: MemSink,
    pub err: MemSink,
}

// Calls that are to fail: of the shelf, of `out` and of `err`, with how many bytes they take. 0 is no call.
#[derive(Clone, Copy)]
pub struct Failing {
    pub shelf: u64,
    pub out: (u64, usize),
    pub err: (u64, usize),
}

pub const NONE: Failing = Failing {
    shelf: 0,
    out: (0, 0),
    err: (0, 0),
};

pub fn words_of(rt: &HostRuntime, texts: &[&str]) -> Result<Vec<String>, Fail> {
    let mut words = Vec::new(rt.alloc());
    for text in texts {
        words.push(String::from_str(rt.alloc(), text)?)?;
    }
    Ok(words)
}

// Runs the words over a shelf that holds the document as `a` and three bytes as `e`, and gives at most `most` bytes a call.
pub fn answer_of(
    rt: &HostRuntime,
    texts: &[&str],
    document: &[u8],
    most: usize,
    failing: &Failing,
) -> Result<Answer, Fail>
    requires { 0 < most }
{
    let words = words_of(rt, texts)?;
    let mut shelf = MemShelf::new(rt.alloc(), most);
    shelf.add("a", document)?;
    shelf.add("e", b"abc")?;
    shelf.fail_at(failing.shelf)?;
    let mut out = MemSink::new(rt.alloc(), 4000)?;
    out.fail_at(failing.out.0, failing.out.1)?;
    let mut err = MemSink::new(rt.alloc(), 4000)?;
    err.fail_at(failing.err.0, failing.err.1)?;
    let status = run(rt.alloc(), &words, &mut shelf, &mut out, &mut err);
    Ok(Answer {
        number: status.number(),
        out,
        err,
    })
}

// Whether the answer is this one.
pub fn is(answer: &Answer, number: u8, out: &[u8], err: &[u8]) -> bool {
    answer.number == number && answer.out.as_slice() == out && answer.err.as_slice() == err
}
