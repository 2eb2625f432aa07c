//! Certificates and CRLs by their octets.

ghost use Rattle.std.specs.Prelude.{◌≡◌, slice_get, Some, IfOk, OnOk, OnErr};
ghost use Rattle.der_values.specs.Fits.{IsObject};
ghost use Rattle.x509_certs.specs.Layouts as layout;
ghost use Rattle.acceptance.specs.Certificates as objects;
ghost use Rattle.acceptance.specs.Objects as says;
ghost use Rattle.cert_paths.specs.Pool.{seen, IsWhole};
ghost use Rattle.existence_times.specs.Shown.{KeepsCase};

use crate::fault::CaseFault;
use cert_paths::ObjectId;
use existence_times::Case;
use x509_certs::{Part, read_certificate, read_crl};

fn put(case: &mut Case, part: &Part<'_>) -> Result<ObjectId, CaseFault>
    requires { IsWhole part.now }
    ensures number { IfOk result (λ id. slice_get case.new.pool id.number ≡ Some (seen part.now)) }
    ensures kept { OnOk result (KeepsCase case.old case.new) }
    ensures err { OnErr result (case.new ≡ case.old) }
{
    if case.pool().objects() == u32::MAX {
        return Err(CaseFault::Full);
    }
    match case.add_part(part) {
        Ok(object) => Ok(object),
        Err(_) => Err(CaseFault::OutOfMemory),
    }
}

/// Puts a certificate into a case by its octets, once. After an error the case is as before.
pub fn put_certificate(case: &mut Case, bytes: &[u8]) -> Result<ObjectId, CaseFault>
    ensures whole { OnOk result (IsObject layout.certificate bytes.now) }
    ensures number { IfOk result (λ id. slice_get case.new.pool id.number ≡ Some (objects.certificate (says.certificate_of bytes.now))) }
    ensures kept { OnOk result (KeepsCase case.old case.new) }
    ensures err { OnErr result (case.new ≡ case.old) }
{
    match read_certificate(bytes) {
        Ok(certificate) => put(case, &Part::Cert(certificate)),
        Err(_) => Err(CaseFault::Shape),
    }
}

/// Puts a CRL into a case by its octets, once. After an error the case is as before.
pub fn put_list(case: &mut Case, bytes: &[u8]) -> Result<ObjectId, CaseFault>
    ensures whole { OnOk result (IsObject layout.revocation_list bytes.now) }
    ensures number { IfOk result (λ id. slice_get case.new.pool id.number ≡ Some (objects.crl (says.crl_of bytes.now))) }
    ensures kept { OnOk result (KeepsCase case.old case.new) }
    ensures err { OnErr result (case.new ≡ case.old) }
{
    match read_crl(bytes) {
        Ok(list) => put(case, &Part::List(list)),
        Err(_) => Err(CaseFault::Shape),
    }
}
