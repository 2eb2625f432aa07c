//! Validation data from the bytes of a file (RFC 5280, sections 4.1 and 5.1).

ghost use Rattle.std.specs.Prelude.{◌≡◌, ◌++◌, ◌∷◌, [], if◌then◌else◌, IfOk, IfErr, OnOk, length, map};
ghost use Rattle.covered_items.specs.Whole.{AreWhole};
ghost use Rattle.der_values.specs.Distinct.{octets};
ghost use Rattle.qualifying_props.specs.Whole.{is_whole};
ghost use Rattle.signature_model.specs.Fragments.{Data};
ghost use Rattle.signature_model.specs.Parts.{Certificate as IsCertificate, RevocationList as IsList};
ghost use Rattle.x509_certs.specs.View.{part_bytes, is_certificate};
ghost use Rattle.item_contents.specs.Items.{item_of};
ghost use Rattle.item_contents.specs.Materials.{IsMaterialOf, IsMaterialFault};

use crate::items::Item;
use std::alloc::Global;
use x509_certs::{Part, split_data};
use xa_io::OutOfMemory;

/// Certificates and revocation lists, each in DER and in the order of the file that they are from.
#[derive(Drop)]
pub struct Material<'a> {
    pub certificates: Vec<&'a [u8]>,
    pub lists: Vec<&'a [u8]>,
}

/// Why bytes were not taken for certificates and revocation lists.
#[derive(Clone, Copy, Debug)]
pub enum MaterialFault {
    /// They aren't whole objects one after another; `at` is the place of the first bad element, from 0.
    NotWhole { at: usize },
    /// Memory could not be had.
    OutOfMemory,
}

impl<'a> Material<'a> {
    /// The item that puts all of them in.
    pub fn item(&self) -> Item<'_>
        ensures { item_of result ≡ Data (map octets self.now.certificates.items) (map octets self.now.lists.items) }
    {
        Item::Data {
            certificates: self.certificates.as_slice(),
            lists: self.lists.as_slice(),
        }
    }

    // Adds a certificate or a revocation list behind those that are there.
    fn push(&mut self, part: Part<'a>) -> Result<(), OutOfMemory>
        ensures certificates { OnOk result (map octets self.new.certificates.items
            ≡ map octets self.old.certificates.items ++ (if is_certificate part.entry then part_bytes part.entry ∷ [] else [])) }
        ensures lists { OnOk result (map octets self.new.lists.items
            ≡ map octets self.old.lists.items ++ (if is_certificate part.entry then [] else part_bytes part.entry ∷ [])) }
    {
        let pushed = match part {
            Part::Cert(certificate) => self.certificates.push(certificate.whole()),
            Part::List(list) => self.lists.push(list.whole()),
        };
        match pushed {
            Ok(()) => Ok(()),
            Err(_) => Err(OutOfMemory),
        }
    }
}

/// The certificates and the revocation lists of which bytes are one after another. An object whose signed part begins with `[0]` is taken for
/// a certificate, any other for a revocation list. No bytes are none of either.
pub fn split_material<'a>(alloc: Global, bytes: &'a [u8]) -> Result<Material<'a>, MaterialFault>
    ensures ok { IfOk result (λ material. IsMaterialOf bytes.now (map octets material.certificates.items) (map octets material.lists.items)) }
    ensures certificates { IfOk result (λ material. AreWhole is_whole IsCertificate (map octets material.certificates.items)) }
    ensures lists { IfOk result (λ material. AreWhole is_whole IsList (map octets material.lists.items)) }
    ensures err { IfErr result (IsMaterialFault bytes.now) }
{
    let mut material = Material {
        certificates: Vec::new(alloc),
        lists: Vec::new(alloc),
    };
    let mut at = 0;
    while at < bytes.len() {
        let part = match split_data(bytes, at) {
            Ok(part) => part,
            Err(fault) => return Err(MaterialFault::NotWhole { at: fault.at }),
        };
        match material.push(part) {
            Ok(()) => at += size_of(part),
            Err(OutOfMemory) => return Err(MaterialFault::OutOfMemory),
        }
    }
    Ok(material)
}

// How many bytes an object has.
fn size_of(part: Part<'_>) -> usize
    ensures { result ≡ length (part_bytes part.entry) }
{
    match part {
        Part::Cert(certificate) => certificate.whole().len(),
        Part::List(list) => list.whole().len(),
    }
}
