//! Texts of reports.

ghost use Rattle.report_texts.specs.Facts.{AreTimed, shown};

use crate::facts::{FIRST, broken, good, old};
use algorithms::SignatureKind;
use report_texts::{Facts, Level, write_fault, write_report};
use std::alloc::Global;
use std::test::Fail;
use xa_io::OutOfMemory;

// Whether the report on these facts is this text.
fn says(alloc: Global, facts: &Facts, text: &str) -> Result<bool, OutOfMemory>
    requires { AreTimed (shown facts.now) }
{
    let report = write_report(alloc, facts)?;
    Ok(report.as_slice() == text.as_bytes())
}

const GOOD: &str = "verdict: yes\n\
moment: 2030-01-03T00:00:00Z\n\
level: B-LTA\n\
reference 1: sha256 ba7816bf8f01cfea414140de5dae2223b00361a396177a9cb410ff61f20015ad match accepted 2030-01-02T00:00:00Z\n\
reference 2: sha384 cb00753f45a35e8bb5a03d699ac65007272c32ab0eded1631a8b605a43ff5bed8086072ba1e7cc2358baeca134c825a7 match accepted 2030-01-02T00:00:00Z\n\
certificate: sha512 ddaf35a193617abacc417349ae20413112e6fa4e89a97ea20a9eeee64b55d39a2192992a274fc1a836ba3c23a3feebbd454d4423643ce80e2a9ac94fa54ca49f match accepted 2030-01-02T00:00:00Z\n\
value: hss good accepted 2030-01-01T00:00:00Z\n\
walk: accepted\n\
token 1: signature 2030-01-01T00:00:00Z sound accepted 2030-01-02T00:00:00Z\n\
token 2: archive 2030-01-01T00:00:00Z sound accepted 2030-01-02T00:00:00Z\n\
order: kept\n\
object 1: certificate 2030-01-02T00:00:00Z\n\
object 2: crl 2030-01-03T00:00:00Z\n";

#[test]
fn a_yes(rt: HostRuntime) -> Result<(), Fail> {
    let facts = good(rt.alloc())?;
    assert!(rt; says(rt.alloc(), &facts, GOOD)?);
    Ok(())
}

const BROKEN: &str = "verdict: no\n\
moment: 2030-01-01T00:00:00Z\n\
level: B-T\n\
reference 1: sha256 ba7816bf8f01cfea414140de5dae2223b00361a396177a9cb410ff61f20015ad differ accepted 2030-01-02T00:00:00Z\n\
reference 2: sha256 ba7816bf8f01cfea414140de5dae2223b00361a396177a9cb410ff61f20015ad match withdrawn 2030-01-02T00:00:00Z\n\
certificate: missing\n\
value: unknown bad refused 2030-01-01T00:00:00Z\n\
walk: refused\n\
token 1: signature 2030-01-01T00:00:00Z fault-2 refused 2030-01-02T00:00:00Z\n\
token 2: archive 2030-01-01T00:00:00Z fault-3 accepted 2030-01-02T00:00:00Z\n\
token 3: archive 2030-01-01T00:00:00Z fault-4 refused 2030-01-02T00:00:00Z\n\
token 4: archive 2030-01-01T00:00:00Z fault-5 refused 2030-01-02T00:00:00Z\n\
token 5: archive 2030-01-01T00:00:00Z fault-6 refused 2030-01-02T00:00:00Z\n\
token 6: archive 2030-01-01T00:00:00Z fault-7 refused 2030-01-02T00:00:00Z\n\
token 7: archive 2030-01-01T00:00:00Z fault-8 refused 2030-01-02T00:00:00Z\n\
order: broken\n";

// Each word that stands against a yes but one.
#[test]
fn a_no(rt: HostRuntime) -> Result<(), Fail> {
    let facts = broken(rt.alloc())?;
    assert!(rt; says(rt.alloc(), &facts, BROKEN)?);
    Ok(())
}

const OLD: &str = "verdict: no\n\
moment: 2030-01-01T00:00:00Z\n\
level: B-LT\n\
certificate: sha256 ba7816bf8f01cfea414140de5dae2223b00361a396177a9cb410ff61f20015ad match withdrawn 2030-01-02T00:00:00Z\n\
value: xmss good withdrawn 2030-01-01T00:00:00Z\n\
walk: accepted\n\
order: kept\n";

// An algorithm that isn't accepted any more stands against a yes.
#[test]
fn an_old_value(rt: HostRuntime) -> Result<(), Fail> {
    let facts = old(rt.alloc(), Level::Lt, SignatureKind::Xmss, false)?;
    assert!(rt; says(rt.alloc(), &facts, OLD)?);
    Ok(())
}

const PLAIN: &str = "verdict: yes\n\
moment: 2030-01-01T00:00:00Z\n\
level: B-B\n\
certificate: sha256 ba7816bf8f01cfea414140de5dae2223b00361a396177a9cb410ff61f20015ad match accepted 2030-01-02T00:00:00Z\n\
value: xmssmt good accepted 2030-01-01T00:00:00Z\n\
walk: accepted\n\
order: kept\n";

// Without time-stamps nothing stands against a yes.
#[test]
fn a_yes_without_stamps(rt: HostRuntime) -> Result<(), Fail> {
    let facts = old(rt.alloc(), Level::B, SignatureKind::XmssMt, true)?;
    assert!(rt; says(rt.alloc(), &facts, PLAIN)?);
    assert!(rt; facts.is_yes());
    Ok(())
}

const FAULT: &str = "verdict: no\nmoment: 2030-01-01T00:00:00Z\nfault: A10\n";

// The report on a document with a Reference to a file that isn't handed in.
#[test]
fn a_fault(rt: HostRuntime) -> Result<(), Fail> {
    let report = write_fault(rt.alloc(), FIRST, 10)?;
    assert!(rt; report.as_slice() == FAULT.as_bytes());
    Ok(())
}
