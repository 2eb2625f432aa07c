//! What a policy says.

ghost use Rattle.std.specs.Prelude.{◌≡◌, ◌<◌, ◌≤◌, ◌↔◌, Some, IsTrue, length, slice_get};
ghost use Rattle.der_values.specs.Fits.{IsObject};
ghost use Rattle.x509_certs.specs.Certificates as certificates;
ghost use Rattle.x509_certs.specs.Layouts as layout;
ghost use Rattle.x509_certs.specs.View.{certificate_bytes};
ghost use Rattle.policy_rules.specs.Rules as says;
ghost use Rattle.policy_rules.specs.View.{rules, kind_view, digest_view};

use crate::entries::{DigestEntry, KindEntry};
use crate::policy::Policy;
use algorithms::{DigestKind, SignatureKind};
use x509_certs::{Certificate, read_certificate};

fn is_before(at: i64, until: Option<i64>) -> bool
    ensures { IsTrue result ↔ says.IsBefore at until }
{
    match until {
        None => true,
        Some(end) => at < end,
    }
}

fn accepts_kind(entry: &KindEntry, kind: SignatureKind, at: i64) -> bool
    ensures { IsTrue result ↔ says.IsKindRule kind at (kind_view entry.now) }
{
    entry.kind == kind && is_before(at, entry.until)
}

fn accepts_digest(entry: &DigestEntry, kind: DigestKind, at: i64) -> bool
    ensures { IsTrue result ↔ says.IsDigestRule kind at (digest_view entry.now) }
{
    entry.kind == kind && is_before(at, entry.until)
}

fn names(entry: &KindEntry, uri: &str) -> bool
    ensures { result ≡ says.is_among uri.now (kind_view entry.now).uris }
{
    for listed in &entry.uris {
        if uri == listed.as_str() {
            return true;
        }
    }
    false
}

impl Policy {
    /// The version of the text's format, 1 or 2. By version 2 a token proves its time plus its accuracy.
    pub fn version(&self) -> u32
        ensures value { result ≡ (rules self.now).version }
        ensures known { (1 ≤ result) × (result ≤ 2) }
    {
        self.version
    }

    /// The kind of the signature method with this URI, where the policy lists it.
    pub fn kind_of_uri(&self, uri: &str) -> Option<SignatureKind>
        ensures { result ≡ says.kind_of_uri (rules self.now).kinds uri.now }
    {
        for entry in &self.kinds {
            if names(entry, uri) {
                return Some(entry.kind);
            }
        }
        None
    }

    /// Whether the kind of signatures is accepted at a time, in seconds since 1970: it is listed, and the time is before its end,
    /// or it has none.
    pub fn kind_accepted(&self, kind: SignatureKind, at: i64) -> bool
        ensures { IsTrue result ↔ says.AcceptsKind (rules self.now) kind at }
    {
        for entry in &self.kinds {
            if accepts_kind(entry, kind, at) {
                return true;
            }
        }
        false
    }

    /// Whether the kind of digests is accepted at a time, in seconds since 1970: it is listed, and the time is before its end, or
    /// it has none.
    pub fn digest_accepted(&self, kind: DigestKind, at: i64) -> bool
        ensures { IsTrue result ↔ says.AcceptsDigest (rules self.now) kind at }
    {
        for entry in &self.digests {
            if accepts_digest(entry, kind, at) {
                return true;
            }
        }
        false
    }

    /// How many anchors there are: 1 to 64.
    pub fn anchors(&self) -> usize
        ensures value { result ≡ length (rules self.now).anchors }
        ensures range { (1 ≤ result) × (result ≤ 64) }
    {
        self.anchors.len()
    }

    /// The anchor of this number, counted from 0, which is below `anchors`.
    pub fn anchor(&self, number: usize) -> Certificate<'_>
        requires { number < length (rules self.now).anchors }
        ensures found { slice_get (rules self.now).anchors number ≡ Some (certificate_bytes result) }
        ensures whole { IsObject layout.certificate (certificate_bytes result) }
        ensures times { certificates.HasTimes (certificate_bytes result) }
    {
        match read_certificate(self.anchors[number].as_slice()) {
            Ok(certificate) => certificate,
            Err(_) => unreachable!(),
        }
    }
}
