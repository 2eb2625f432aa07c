// The line for a status.
ghost use Rattle.std.specs.Prelude.{◌≡◌, ◌≤◌, ◌++◌, OnOk, OnErr, unwrap_or};
ghost use Rattle.xa_io.specs.Sink.{appended};
ghost use Rattle.xa_io.specs.Causes.{Rose};
ghost use Rattle.xa_io.specs.Sink.{GaveFirst};
ghost use Rattle.doc_spans.specs.Faults.{fault_place};
ghost use Rattle.xades_cli.specs.Lines.{parts_line, fault_line, policy_line, data_line, refusal_line, line_of, Gives};

use crate::status::Status;
use doc_spans::DocFault;
use itoa::Buffer;
use policy_rules::PolicyFault;
use xa_io::{Sink, SinkFailed};

// Gives two pieces, one after the other.
fn put_two<E: Sink>(err: &mut E, first: &[u8], second: &[u8]) -> Result<(), SinkFailed>
    ensures ok { OnOk result (E.given err.new ≡ appended (E.given err.old) (first.now ++ second.now)) }
    ensures part { OnErr result (GaveFirst (first.now ++ second.now) (E.given err.old) (E.given err.new)) }
    ensures failed { OnErr result (Rose (E.faults err.old) (E.faults err.new)) }
    ensures faults_stay { E.faults err.old ≤ E.faults err.new }
{
    match err.put(first) {
        Ok(()) => {}
        Err(SinkFailed) => return Err(SinkFailed),
    }
    match err.put(second) {
        Ok(()) => Ok(()),
        Err(SinkFailed) => Err(SinkFailed),
    }
}

// Gives three pieces, one after the other.
fn put_three<E: Sink>(
    err: &mut E,
    first: &[u8],
    second: &[u8],
    third: &[u8],
) -> Result<(), SinkFailed>
    ensures ok { OnOk result (E.given err.new ≡ appended (E.given err.old) (first.now ++ second.now ++ third.now)) }
    ensures part { OnErr result (GaveFirst (first.now ++ second.now ++ third.now) (E.given err.old) (E.given err.new)) }
    ensures failed { OnErr result (Rose (E.faults err.old) (E.faults err.new)) }
    ensures faults_stay { E.faults err.old ≤ E.faults err.new }
{
    match put_two(err, first, second) {
        Ok(()) => {}
        Err(SinkFailed) => return Err(SinkFailed),
    }
    match err.put(third) {
        Ok(()) => Ok(()),
        Err(SinkFailed) => Err(SinkFailed),
    }
}

// The place of a fault in a document of this size.
fn place_of(fault: &DocFault, size: usize) -> usize
    ensures { result ≡ unwrap_or (fault_place fault.now) size }
{
    match fault.place() {
        Some(at) => at as usize,
        None => size,
    }
}

// Gives a line of four parts.
fn put_line<E: Sink>(
    err: &mut E,
    opening: &[u8],
    first: &[u8],
    middle: &[u8],
    second: &[u8],
) -> Result<(), SinkFailed>
    ensures ok { OnOk result (E.given err.new ≡ appended (E.given err.old) (parts_line opening.now first.now middle.now second.now)) }
    ensures part { OnErr result (GaveFirst (parts_line opening.now first.now middle.now second.now) (E.given err.old) (E.given err.new)) }
    ensures failed { OnErr result (Rose (E.faults err.old) (E.faults err.new)) }
{
    match put_three(err, opening, first, middle) {
        Ok(()) => {}
        Err(SinkFailed) => return Err(SinkFailed),
    }
    match put_two(err, second, b"\n") {
        Ok(()) => Ok(()),
        Err(SinkFailed) => Err(SinkFailed),
    }
}

// Gives the line for a fault of a document.
fn put_fault<E: Sink>(err: &mut E, number: u8, place: usize) -> Result<(), SinkFailed>
    ensures ok { OnOk result (E.given err.new ≡ appended (E.given err.old) (fault_line number place)) }
    ensures part { OnErr result (GaveFirst (fault_line number place) (E.given err.old) (E.given err.new)) }
    ensures failed { OnErr result (Rose (E.faults err.old) (E.faults err.new)) }
{
    let mut digits = Buffer::new();
    let mut places = Buffer::new();
    let number = digits.format(number as u32).as_bytes();
    let place = places.format(place).as_bytes();
    put_line(err, b"xades: document fault ", number, b" at ", place)
}

// Gives the line for an item that is refused.
fn put_refusal<E: Sink>(err: &mut E, item: u32, number: u8) -> Result<(), SinkFailed>
    ensures ok { OnOk result (E.given err.new ≡ appended (E.given err.old) (refusal_line item number)) }
    ensures part { OnErr result (GaveFirst (refusal_line item number) (E.given err.old) (E.given err.new)) }
    ensures failed { OnErr result (Rose (E.faults err.old) (E.faults err.new)) }
{
    let mut items = Buffer::new();
    let mut digits = Buffer::new();
    let item = items.format(item).as_bytes();
    let number = digits.format(number as u32).as_bytes();
    put_line(err, b"xades: item ", item, b" refused: A", number)
}

// Gives the line for a fault of a policy.
fn put_policy<E: Sink>(err: &mut E, fault: &PolicyFault) -> Result<(), SinkFailed>
    ensures ok { OnOk result (E.given err.new ≡ appended (E.given err.old) (policy_line fault.now)) }
    ensures part { OnErr result (GaveFirst (policy_line fault.now) (E.given err.old) (E.given err.new)) }
    ensures failed { OnErr result (Rose (E.faults err.old) (E.faults err.new)) }
{
    let mut digits = Buffer::new();
    let opening = b"xades: policy fault ";
    match fault {
        PolicyFault::Toml => put_line(err, opening, b"1", b": ", b"toml"),
        PolicyFault::Field { name } => {
            put_line(err, opening, b"2", b": ", name.as_str().as_bytes())
        }
        PolicyFault::Anchor { index } => {
            put_line(err, opening, b"3", b": ", digits.format(*index).as_bytes())
        }
        PolicyFault::OutOfMemory => put_line(err, opening, b"4", b": ", b"memory"),
    }
}

// Gives the line for a file that isn't whole DER from a place on.
fn put_data<E: Sink>(err: &mut E, name: &[u8], at: u64) -> Result<(), SinkFailed>
    ensures ok { OnOk result (E.given err.new ≡ appended (E.given err.old) (data_line name.now at)) }
    ensures part { OnErr result (GaveFirst (data_line name.now at) (E.given err.old) (E.given err.new)) }
    ensures failed { OnErr result (Rose (E.faults err.old) (E.faults err.new)) }
{
    let mut digits = Buffer::new();
    let place = digits.format(at).as_bytes();
    put_line(err, b"xades: data fault: ", name, b" at ", place)
}

// Gives the line for a status.
fn try_say<E: Sink>(err: &mut E, status: &Status, size: usize) -> Result<(), SinkFailed>
    ensures ok { OnOk result (E.given err.new ≡ appended (E.given err.old) (line_of size status.now)) }
    ensures part { OnErr result (GaveFirst (line_of size status.now) (E.given err.old) (E.given err.new)) }
    ensures failed { OnErr result (Rose (E.faults err.old) (E.faults err.new)) }
{
    let mut digits = Buffer::new();
    match status {
        Status::Done => Ok(()),
        Status::No => Ok(()),
        Status::BadWords { index } => put_three(
            err,
            b"xades: word ",
            digits.format(*index).as_bytes(),
            b" is not understood\n",
        ),
        Status::NoSuchFile { name } => put_three(
            err,
            b"xades: no such file: ",
            name.as_str().as_bytes(),
            b"\n",
        ),
        Status::ReadFault { name } => put_three(
            err,
            b"xades: read fault: ",
            name.as_str().as_bytes(),
            b"\n",
        ),
        Status::WriteFault => err.put(b"xades: write fault\n"),
        Status::TooLong { name, .. } => put_three(
            err,
            b"xades: too long: ",
            name.as_str().as_bytes(),
            b"\n",
        ),
        Status::BadDocument(fault) => put_fault(err, fault.number(), place_of(fault, size)),
        Status::BadPolicy(fault) => put_policy(err, fault),
        Status::BadData { name, at } => put_data(err, name.as_str().as_bytes(), *at),
        Status::Refused { item, code } => put_refusal(err, *item, code.number()),
        Status::OutOfMemory => err.put(b"xades: out of memory\n"),
    }
}

/// Gives the line for a status, or a first part of it where `err` fails. `size` is the length of the document, which is
/// the place of a fault at its end.
pub fn say<E: Sink>(err: &mut E, status: &Status, size: usize)
    ensures { Gives (line_of size status.now) (E.given err.old) (E.given err.new) (E.faults err.old) (E.faults err.new) }
{
    match try_say(err, status, size) {
        Ok(()) => {}
        Err(SinkFailed) => {}
    }
}
