//! One program for the measurements of bench/: it verifies signatures many times, finds the earliest times of cases, and prints objects of
//! the made-up world. Its first word says which; with none nothing is printed.
//!
//! - `hss TREE ONE_TIME COUNT`, `xmss SET COUNT`, `xmssmt SET COUNT`: signatures of no one are judged so often.
//! - `sha256 COUNT`: so many bare hashes.
//! - `root SET IDX STEP`: the root to which a signature of XMSS^MT leads.
//! - `verify KIND KEY MESSAGE SIGNATURE`: whether a signature of a kind, `hss`, `xmss` or `xmssmt`, holds; octets in hexadecimal.
//! - `upwards COUNT`, `downwards COUNT`: the earliest times over 64 stamps are found so often.
//! - `strangers COUNT`, `insiders COUNT`: those over so many certificates of an opponent are found once.
//! - `certificate`, `list`, `token`: an object of the made-up world in hexadecimal.
#![tactic(auto)]

mod failed;
mod hashing;
mod judging;
mod objects;
mod opponents;
mod stamps_case;
mod times;

use failed::Failed;
use std::alloc::Global;
use std::{env, io};

// The number that a word spells, or 0.
fn number(words: &[String], place: usize) -> u64 {
    match words.get(place) {
        Some(word) => word.as_str().parse().unwrap_or(0),
        None => 0,
    }
}

fn small(words: &[String], place: usize) -> u8 {
    (number(words, place) % 256) as u8
}

fn count(words: &[String], place: usize) -> u32 {
    (number(words, place) % 0x1_0000_0000) as u32
}

// What the words on hashes and signatures come to.
fn hashed(alloc: Global, kind: &str, words: &[String]) -> Result<u32, Failed> {
    let verified = match kind {
        "hss" => { hashing::verify_hss(alloc, small(words, 1), small(words, 2), count(words, 3)) }
        "xmss" => hashing::verify_xmss(alloc, small(words, 1), count(words, 2)),
        "xmssmt" => hashing::verify_many_trees(alloc, small(words, 1), count(words, 2)),
        _ => Ok(u32::from(hashing::hash_blocks(count(words, 1)))),
    };
    match verified {
        Ok(result) => Ok(result),
        Err(_) => Err(Failed),
    }
}

// The line that the words come to.
fn line(alloc: Global, kind: &str, words: &[String]) -> Result<String, Failed> {
    match kind {
        "certificate" | "list" | "token" => objects::object(alloc, kind),
        "root" => {
            let idx = number(words, 2);
            Ok(hashing::root_of_many_trees(alloc, small(words, 1), idx, small(words, 3))?)
        }
        "verify" => judging::judge(alloc, words),
        "upwards" | "downwards" | "strangers" | "insiders" => {
            times::found(alloc, kind, count(words, 1))
        }
        _ => {
            let result = hashed(alloc, kind, words)?;
            Ok(format!(in alloc; "{kind}: {result}")?)
        }
    }
}

fn main(rt: HostRuntime) -> io::Result<()> {
    let mut words = Vec::new(rt.alloc());
    for word in env::args(&rt)?.skip(1) {
        words.push(word)?;
    }
    let Some(kind) = words.first() else {
        return Ok(());
    };
    if let Ok(line) = line(rt.alloc(), kind.as_str(), &words) {
        println!(rt; "{line}")?;
    }
    Ok(())
}
