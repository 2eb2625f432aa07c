//! The shelf and the sink that never fail, and the real ones over a real file.

use crate::canon::CANON;
use crate::runs::words_of;
use std::test::Fail;
use std::{env, fs};
use xa_io::{FileShelf, Got, Name, Octs, Shelf, Sink, StdSink, SureShelf, SureSink};
use xades_cli::run;

#[test]
fn shelves_and_sinks_that_never_fail(rt: HostRuntime) -> Result<(), Fail> {
    let words = words_of(&rt, CANON)?;
    let mut shelf = SureShelf::new(rt.alloc(), 3);
    shelf.add("a", b"<a/>")?;
    let mut out = SureSink::new();
    let mut err = SureSink::new();
    let status = run(rt.alloc(), &words, &mut shelf, &mut out, &mut err);
    assert!(rt; status.number() == 0);
    Ok(())
}

#[test]
fn real_files_hold_what_was_written(rt: HostRuntime) -> Result<(), Fail> {
    let path = env::temp_dir(&rt)?.join(rt.alloc(), "xades_real_files")?;
    let mut sink = StdSink::new(fs::create(&rt, &path)?);
    sink.put(b"abc")?;
    sink.put(b"")?;
    sink.put(b"de")?;
    let text = path.to_str().ok_or("a path that is no text")?;
    let name = Name::new(rt.alloc(), text)?;
    let mut shelf = FileShelf::new(&rt);
    let mut part = [0; 4];
    let mut read = Octs::new(rt.alloc());
    assert!(rt; shelf.read_at(name.as_str(), 0, &mut part)? == Got::Bytes(4));
    read.push_all(&part)?;
    assert!(rt; shelf.read_at(name.as_str(), 4, &mut part)? == Got::Bytes(1));
    read.push_all(&part[..1])?;
    assert!(rt; shelf.read_at(name.as_str(), 5, &mut part)? == Got::End);
    assert!(rt; read.as_slice() == b"abcde".as_slice());
    fs::remove_file(&rt, &path)?;
    assert!(rt; shelf.read_at(name.as_str(), 0, &mut part)? == Got::NoSuch);
    assert!(rt; shelf.read_at("/", 0, &mut part).is_err());
    Ok(())
}
