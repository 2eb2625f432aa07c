//! Bytes that are met, each kept once.

ghost use Rattle.std.specs.Prelude.{◌≡◌, List, ℕ, OnOk};
ghost use Rattle.der_values.specs.Fits.{IsObject};
ghost use Rattle.signature_objects.specs.Met.{HasMet, bytes_of_token, with_all, with_bytes};
ghost use Rattle.tst_tokens.specs.Layouts as layout;

use std::collections::BTreeSet;
use tst_tokens::whole_token;
use xa_io::OutOfMemory;

// Meets some bytes.
pub(crate) fn meet<'a>(met: &mut BTreeSet<&'a [u8]>, bytes: &'a [u8]) -> Result<(), OutOfMemory>
    ensures { (all : List (List ℕ)) → HasMet met.old all → OnOk result (HasMet met.new (with_bytes all bytes.now)) }
{
    match met.insert(bytes) {
        Ok(_) => Ok(()),
        Err(_) => Err(OutOfMemory),
    }
}

// Meets a token, and then the certificates that it holds.
pub(crate) fn meet_token<'a>(
    met: &mut BTreeSet<&'a [u8]>,
    token: &'a [u8],
) -> Result<(), OutOfMemory>
    requires { IsObject layout.token token.now }
    ensures { (all : List (List ℕ)) → HasMet met.old all → OnOk result (HasMet met.new (with_all all (bytes_of_token token.now))) }
{
    meet(met, token)?;
    for certificate in whole_token(token).certificates() {
        meet(met, certificate.whole())?;
    }
    Ok(())
}
