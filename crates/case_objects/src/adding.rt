//! Certificates, revocation lists and tokens added to a case.

ghost use Rattle.std.specs.Prelude.{◌≡◌, ◌<◌, ◌-◌, ◌^◌, ◌↔◌, ℕ, List, length, IsTrue, OnOk};
ghost use Rattle.der_values.specs.Fits.{IsObject};
ghost use Rattle.tst_tokens.specs.Layouts as layout;
ghost use Rattle.cert_paths.specs.Pool.{IsWhole};
ghost use Rattle.qualifying_props.specs.Whole.{IsWhole as IsWholeOf};
ghost use Rattle.qualifying_props.specs.Wholes.{IsMaterial};
ghost use Rattle.signature_model.specs.Parts.{Certificate as IsCertificate};
ghost use Rattle.signature_objects.specs.Held.{objects_of_token};
ghost use Rattle.signature_objects.specs.Objects.{Object, Certificate, Token, with_object, with_objects};
ghost use Rattle.case_steps.specs.Built.{ShowsObjects};
ghost use Rattle.case_steps.specs.Putting.{object_of};
ghost use Rattle.case_objects.specs.Walks.{object_in};

use case_steps::{put_part, put_token};
use existence_times::Case;
use tst_tokens::whole_token;
use x509_certs::{Part, read_certificate, read_crl};
use xa_io::OutOfMemory;

// Whether a case has a number for one more object.
fn has_room(case: &Case) -> bool
    ensures { IsTrue result ↔ (length case.now.pool < 2 ^ 32 - 1) }
{
    case.pool().objects() < u32::MAX
}

/// Adds a whole certificate or CRL behind the objects of a case, unless it is one of them. Err: memory could not be had, or there are 2^32 - 1
/// objects.
pub fn add(case: &mut Case, part: &Part<'_>) -> Result<(), OutOfMemory>
    requires whole { IsWhole part.now }
    ensures objects { (objects : List Object) → ShowsObjects objects case.old → OnOk result (ShowsObjects (with_object objects (object_of part.now)) case.new) }
    ensures stamps { OnOk result (case.new.stamps ≡ case.old.stamps) }
{
    if !has_room(case) {
        return Err(OutOfMemory);
    }
    put_part(case, part)?;
    Ok(())
}

// Adds the certificate that octets are.
pub(crate) fn add_certificate(case: &mut Case, octets: &[u8]) -> Result<(), OutOfMemory>
    requires whole { IsWholeOf IsCertificate octets.now }
    ensures objects { (objects : List Object) → ShowsObjects objects case.old → OnOk result (ShowsObjects (with_object objects (Certificate octets.now)) case.new) }
    ensures stamps { OnOk result (case.new.stamps ≡ case.old.stamps) }
{
    match read_certificate(octets) {
        Ok(certificate) => add(case, &Part::Cert(certificate)),
        Err(_) => unreachable!(),
    }
}

// Adds the certificate or CRL that octets are.
pub(crate) fn add_material(case: &mut Case, octets: &[u8]) -> Result<(), OutOfMemory>
    requires whole { IsMaterial octets.now }
    ensures objects { (objects : List Object) → ShowsObjects objects case.old → OnOk result (ShowsObjects (with_object objects (object_in octets.now)) case.new) }
    ensures stamps { OnOk result (case.new.stamps ≡ case.old.stamps) }
{
    if let Ok(certificate) = read_certificate(octets) {
        return add(case, &Part::Cert(certificate));
    }
    match read_crl(octets) {
        Ok(list) => add(case, &Part::List(list)),
        Err(_) => unreachable!(),
    }
}

// Adds a token.
fn add_bytes(case: &mut Case, token: &[u8]) -> Result<(), OutOfMemory>
    requires whole { IsObject layout.token token.now }
    ensures objects { (objects : List Object) → ShowsObjects objects case.old → OnOk result (ShowsObjects (with_object objects (Token token.now)) case.new) }
    ensures stamps { OnOk result (case.new.stamps ≡ case.old.stamps) }
{
    if !has_room(case) {
        return Err(OutOfMemory);
    }
    put_token(case, token)?;
    Ok(())
}

// Adds a token, and then the certificates that it holds.
pub(crate) fn add_token(case: &mut Case, token: &[u8]) -> Result<(), OutOfMemory>
    requires whole { IsObject layout.token token.now }
    ensures objects { (objects : List Object) → ShowsObjects objects case.old → OnOk result (ShowsObjects (with_objects objects (objects_of_token token.now)) case.new) }
    ensures stamps { OnOk result (case.new.stamps ≡ case.old.stamps) }
{
    add_bytes(case, token)?;
    for certificate in whole_token(token).certificates() {
        add(case, &Part::Cert(certificate))?;
    }
    Ok(())
}
