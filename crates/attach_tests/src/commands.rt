//! A value that is attached by the command, over files in memory.

use crate::scene::Scene;
use std::test::Fail;
use xa_io::{MemShelf, MemSink};
use xades_cli::run;

const WORDS: [&str; 5] = [
    "attach",
    "doc=d",
    "policy=p",
    "at=2030-01-01T00:00:00Z",
    "value=v",
];

fn words(rt: &HostRuntime) -> Result<Vec<String>, Fail> {
    let mut words = Vec::new(rt.alloc());
    for text in WORDS {
        words.push(String::from_str(rt.alloc(), text)?)?;
    }
    Ok(words)
}

// The prepared document, the policy and the value, as files.
fn shelf(rt: &HostRuntime, scene: &Scene) -> Result<MemShelf, Fail> {
    let mut shelf = MemShelf::new(rt.alloc(), 1000);
    shelf.add("d", scene.prepared())?;
    shelf.add("p", scene.policy()?.as_bytes())?;
    shelf.add("v", scene.value())?;
    Ok(shelf)
}

#[test]
fn a_value_is_put_in_by_the_command(rt: HostRuntime) -> Result<(), Fail> {
    let scene = Scene::new(rt.alloc())?;
    let words = words(&rt)?;
    let mut shelf = shelf(&rt, &scene)?;
    let mut out = MemSink::new(rt.alloc(), 20_000)?;
    let mut err = MemSink::new(rt.alloc(), 100)?;
    let status = run(rt.alloc(), &words, &mut shelf, &mut out, &mut err);
    let signed = scene.signed()?;
    assert!(rt; status.number() == 0 && out.as_slice() == signed.as_slice());
    assert!(rt; err.as_slice().is_empty());
    Ok(())
}
