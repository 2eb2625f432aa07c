//! Time-stamps by the octets of their tokens.

ghost use Rattle.std.specs.Prelude.{◌≡◌, ◌∷◌, ◌++◌, ◌<◌, [], length, map, All, IfOk, OnOk, OnErr};
ghost use Rattle.tst_tokens.specs.View.{token_bytes};
ghost use Rattle.acceptance.specs.Objects.{token_of};
ghost use Rattle.cert_paths.specs.Pool.{Keeps};
ghost use Rattle.existence_times.specs.Kept.{number_of};
ghost use Rattle.existence_times.specs.Shown.{HasToken, HasSignerOf, KeepsCase};

use crate::fault::CaseFault;
use crate::parts::put_certificate;
use cert_paths::{ObjectId, Pool};
use existence_times::Case;
use std::alloc::Global;
use tst_tokens::{Token, read_token};

// Puts the certificate that a token is signed by into a case.
#[tactic(auto, unfolding(acceptance::specs::Objects::token_of, acceptance::specs::Objects::certificate_of))]
fn put_signer(case: &mut Case, token: &Token<'_>) -> Result<(), CaseFault>
    ensures signer { OnOk result (HasSignerOf case.new.pool (token_of (token_bytes token.now))) }
    ensures kept { OnOk result (KeepsCase case.old case.new) }
    ensures err { OnErr result (case.new ≡ case.old) }
{
    let Some(signer) = token.signer() else {
        return Err(CaseFault::NoSigner);
    };
    put_certificate(case, signer.whole())?;
    Ok(())
}

// The objects of a pool with these numbers.
fn objects_of(alloc: Global, pool: &Pool, numbers: &[u32]) -> Result<Vec<ObjectId>, CaseFault>
    ensures numbers { IfOk result (λ v. map number_of v.items ≡ numbers.now) }
    ensures within { IfOk result (λ v. All (λ y. y < length pool.now) numbers.now) }
{
    let mut objects = Vec::new(alloc);
    for number in numbers {
        if *number >= pool.objects() {
            return Err(CaseFault::NoObject);
        }
        objects.push(pool.object(*number))?;
    }
    Ok(objects)
}

/// Puts a token into a case by its octets, once, with the certificate of its signer.
///
/// After an error the certificate may be there, and the stamps are as before.
pub fn put_token(case: &mut Case, token: &[u8]) -> Result<ObjectId, CaseFault>
    ensures token { IfOk result (λ id. HasToken case.new id.number token.now) }
    ensures signer { OnOk result (HasSignerOf case.new.pool (token_of token.now)) }
    ensures kept { OnOk result (KeepsCase case.old case.new) }
    ensures err { OnErr result (case.new.stamps ≡ case.old.stamps) }
{
    let Ok(read) = read_token(token) else {
        return Err(CaseFault::Shape);
    };
    put_signer(case, &read)?;
    if case.pool().objects() == u32::MAX {
        return Err(CaseFault::Full);
    }
    let object = case.add_token(token)?;
    Ok(object)
}

/// Puts a time-stamp into a case by the octets of its token, with the token and the certificate of its signer, and gives the token's
/// object. What it covers is named by the numbers of the objects.
///
/// After an error the certificate and the token may be there, and the stamps are as before.
pub fn put_stamp(
    alloc: Global,
    case: &mut Case,
    token: &[u8],
    sound: bool,
    covers: &[u32],
) -> Result<ObjectId, CaseFault>
    ensures stamp { IfOk result (λ id. case.new.stamps ≡ case.old.stamps ++ record { object = id.number; token = token.now; sound = sound; covers = covers.now } ∷ []) }
    ensures token { IfOk result (λ id. HasToken case.new id.number token.now) }
    ensures kept { OnOk result (Keeps case.old.pool case.new.pool) }
    ensures err { OnErr result (case.new.stamps ≡ case.old.stamps) }
{
    let object = put_token(case, token)?;
    let covered = objects_of(alloc, case.pool(), covers)?;
    case.add_stamp(object, sound, &covered)?;
    Ok(object)
}
