//! Drafts of signatures.

ghost use Rattle.std.specs.Prelude.{◌≡◌, ◌<◌, IfOk, OnOk, OnErr, length, slice_get, Some, neg_ℤ, pos};
ghost use Rattle.std.specs.Str.{chars};
ghost use Rattle.jiff_core.specs.Calendar.{IsBetween};
ghost use Rattle.utc_times.specs.TimeText.{time_of};
ghost use Rattle.signature_elements.specs.DigestKinds.{kind_in};
ghost use Rattle.signature_drafts.specs.Drafts.{begun, with_certificate, with_reference};

use algorithms::DigestKind;
use std::alloc::Global;
use std::marker::Model;
use utc_times::time_text;
use xa_io::{Name, Octs, OutOfMemory};

/// What a signature is prepared from: the time of signing, its identifier, the URI of its signature method, the digest algorithm, the
/// certificates of its `KeyInfo`, of which the first is the signer's, and the URIs of the References that are asked for.
#[derive(Drop)]
pub struct Draft {
    time: [u8; 20],
    id: Name,
    method: Name,
    digest: DigestKind,
    certificates: Vec<Octs>,
    references: Vec<Name>,
    alloc: Global,
}

impl Model for Draft {
    ghost use Rattle.std.specs.Prelude.{map};
    ghost use Rattle.std.specs.Str.{chars};
    ghost use Rattle.signature_elements.specs.DigestKinds.{kind_in};
    ghost use Rattle.signature_model.specs.Prepared.{Draft};

    ghost Value = { Draft };

    ghost view = { λ d. record {
      time = d.time;
      id = chars d.id;
      method = chars d.method;
      digest = kind_in d.digest;
      certificates = d.certificates.items;
      references = map chars d.references.items;
    } };
}

impl Draft {
    /// A draft without a certificate and a Reference. The time is in seconds since 1970, of the years 0000 to 9999.
    pub fn new(
        alloc: Global,
        time: i64,
        id: &str,
        method: &str,
        digest: DigestKind,
    ) -> Result<Draft, OutOfMemory>
        requires { IsBetween (neg_ℤ (pos 62_167_219_200)) (pos 253_402_300_799) time }
        ensures time { IfOk result (λ draft. time_of draft.time ≡ Some time) }
        ensures draft { IfOk result (λ draft. draft ≡ begun draft.time (chars id.now) (chars method.now) (kind_in digest)) }
    {
        Ok(Draft {
            time: time_text(time),
            id: Name::new(alloc, id)?,
            method: Name::new(alloc, method)?,
            digest,
            certificates: Vec::new(alloc),
            references: Vec::new(alloc),
            alloc,
        })
    }

    /// Puts one more certificate behind those that are there: its DER octets. After `OutOfMemory` the draft is as before.
    pub fn add_cert(&mut self, bytes: &[u8]) -> Result<(), OutOfMemory>
        ensures ok { OnOk result (self.new ≡ with_certificate bytes.now self.old) }
        ensures err { OnErr result (self.new ≡ self.old) }
    {
        let mut octets = Octs::new(self.alloc);
        octets.push_all(bytes)?;
        match self.certificates.push(octets) {
            Ok(()) => Ok(()),
            Err(_) => Err(OutOfMemory),
        }
    }

    /// Puts one more Reference behind those that are there, by its URI. After `OutOfMemory` the draft is as before.
    pub fn add_ref(&mut self, uri: &str) -> Result<(), OutOfMemory>
        ensures ok { OnOk result (self.new ≡ with_reference (chars uri.now) self.old) }
        ensures err { OnErr result (self.new ≡ self.old) }
    {
        let name = Name::new(self.alloc, uri)?;
        match self.references.push(name) {
            Ok(()) => Ok(()),
            Err(_) => Err(OutOfMemory),
        }
    }

    /// The time of signing, as its text has it.
    pub fn time(&self) -> &[u8]
        ensures { result.now ≡ self.now.time }
    {
        &self.time
    }

    /// The identifier of the signature.
    pub fn id(&self) -> &str
        ensures { chars result.now ≡ self.now.id }
    {
        self.id.as_str()
    }

    /// The URI of the signature method.
    pub fn method(&self) -> &str
        ensures { chars result.now ≡ self.now.method }
    {
        self.method.as_str()
    }

    /// The digest algorithm.
    pub fn digest(&self) -> DigestKind
        ensures { kind_in result ≡ self.now.digest }
    {
        self.digest
    }

    /// How many certificates there are.
    pub fn certs(&self) -> usize
        ensures { result ≡ length self.now.certificates }
    {
        self.certificates.len()
    }

    /// A certificate, by its number from 0: its DER octets.
    pub fn cert(&self, number: usize) -> &[u8]
        requires { number < length self.now.certificates }
        ensures { slice_get self.now.certificates number ≡ Some result.now }
    {
        self.certificates[number].as_slice()
    }

    /// How many References are asked for.
    pub fn refs(&self) -> usize
        ensures { result ≡ length self.now.references }
    {
        self.references.len()
    }

    /// The URI of a Reference, by its number from 0.
    pub fn uri(&self, number: usize) -> &str
        requires { number < length self.now.references }
        ensures { slice_get self.now.references number ≡ Some (chars result.now) }
    {
        self.references[number].as_str()
    }
}
