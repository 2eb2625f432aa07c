//! Certificates and revocation lists that are handed in (RFC 5280, sections 4.1 and 5.1).

ghost use Rattle.std.specs.Prelude.{◌≡◌, List, OnOk, length};
ghost use Rattle.signature_objects.specs.Objects.{Object, with_objects};
ghost use Rattle.signature_evidence.specs.Material.{material_of};
ghost use Rattle.case_steps.specs.Built.{ShowsObjects};
ghost use Rattle.x509_certs.specs.View.{part_bytes};
ghost use Rattle.signature_cases.specs.Handed.{IsMaterial};

use case_objects::add;
use existence_times::Case;
use x509_certs::{Part, split_data};
use xa_io::OutOfMemory;

// How many bytes an object has.
fn size_of(part: &Part<'_>) -> usize
    ensures { result ≡ length (part_bytes part.now) }
{
    match part {
        Part::Cert(certificate) => certificate.whole().len(),
        Part::List(list) => list.whole().len(),
    }
}

// Adds the certificates and revocation lists of which bytes are one after another behind the objects of a case.
pub(crate) fn add_material(case: &mut Case, bytes: &[u8]) -> Result<(), OutOfMemory>
    requires { IsMaterial bytes.now }
    ensures objects { (objects : List Object) → ShowsObjects objects case.old → OnOk result (ShowsObjects (with_objects objects (material_of bytes.now)) case.new) }
    ensures stamps { OnOk result (case.new.stamps ≡ case.old.stamps) }
{
    let mut at = 0;
    while at < bytes.len() {
        let part = match split_data(bytes, at) {
            Ok(part) => part,
            Err(_) => unreachable!(),
        };
        add(case, &part)?;
        at += size_of(&part);
    }
    Ok(())
}
