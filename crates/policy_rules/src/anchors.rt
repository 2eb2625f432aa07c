//! The trust anchors.

ghost use Rattle.std.specs.Prelude.{◌≡◌, ◌≤◌, length, map, IfOk, vec_len};
ghost use Rattle.policy_rules.specs.Faults.{Gives, GivesValue};
ghost use Rattle.base64.specs.Engines.{standard};
ghost use Rattle.base64.specs.GeneralPurpose.{decoded_of};
ghost use Rattle.policy_rules.specs.Whole.{IsWhole, AreWhole};
ghost use Rattle.policy_rules.specs.Text.{anchor_of, of_number, anchors_from};

use crate::fault::{FieldError, PolicyFault};
use base64::DecodeAllocError;
use base64::engine::general_purpose::STANDARD;
use std::alloc::Global;
use x509_certs::read_certificate;

fn decoded(alloc: Global, text: &str) -> Result<Vec<u8>, FieldError>
    ensures { GivesValue (λ v. v.items) result (decoded_of standard text.now) }
{
    match STANDARD.decode(alloc, text.as_bytes()) {
        Ok(bytes) => Ok(bytes),
        Err(DecodeAllocError::OutOfMemory) => Err(FieldError::OutOfMemory),
        Err(DecodeAllocError::DecodeError(_)) => Err(FieldError::Refused),
    }
}

fn anchor(alloc: Global, text: &str) -> Result<Vec<u8>, FieldError>
    ensures value { GivesValue (λ v. v.items) result (anchor_of text.now) }
    ensures whole { IfOk result (λ v. IsWhole v.items) }
{
    let bytes = decoded(alloc, text)?;
    match read_certificate(bytes.as_slice()) {
        Ok(_) => Ok(bytes),
        Err(_) => Err(FieldError::Refused),
    }
}

fn numbered(alloc: Global, number: u32, text: &str) -> Result<Vec<u8>, PolicyFault>
    ensures value { Gives (λ v. v.items) result (of_number number (anchor_of text.now)) }
    ensures whole { IfOk result (λ v. IsWhole v.items) }
{
    match anchor(alloc, text) {
        Ok(bytes) => Ok(bytes),
        Err(FieldError::Refused) => Err(PolicyFault::Anchor { index: number }),
        Err(FieldError::OutOfMemory) => Err(PolicyFault::OutOfMemory),
    }
}

/// The certificates that the texts spell.
pub(crate) fn anchors(alloc: Global, texts: &[&str]) -> Result<Vec<Vec<u8>>, PolicyFault>
    requires { length texts.now ≤ 64 }
    ensures value { Gives (λ v. map (λ a. a.items) v.items) result (anchors_from 1 (map (λ s. s.now) texts.now)) }
    ensures whole { IfOk result (λ v. AreWhole v.items) }
    ensures each { IfOk result (λ v. vec_len v ≡ length texts.now) }
{
    let mut anchors = Vec::new(alloc);
    let mut number: u32 = 1;
    for text in texts {
        let anchor = numbered(alloc, number, text)?;
        anchors.push(anchor)?;
        number += 1;
    }
    Ok(anchors)
}
