//! Objects put into a case, so that it goes on showing the objects that have been met.

ghost use Rattle.std.specs.Prelude.{◌≡◌, ◌<◌, ◌-◌, ◌^◌, ℕ, List, length, IfOk, OnOk, OnErr};
ghost use Rattle.der_values.specs.Fits.{IsObject};
ghost use Rattle.tst_tokens.specs.Layouts as layout;
ghost use Rattle.cert_paths.specs.Pool.{IsWhole};
ghost use Rattle.existence_times.specs.Shown.{KeepsCase};
ghost use Rattle.signature_objects.specs.Objects.{Object, Token, with_object};
ghost use Rattle.case_steps.specs.Built.{ShowsObjects};
ghost use Rattle.case_steps.specs.Putting.{object_of};

use cert_paths::ObjectId;
use existence_times::Case;
use x509_certs::Part;
use xa_io::OutOfMemory;

/// Puts a whole certificate or CRL behind the objects, unless it is one of them. After `OutOfMemory` the case is as before.
pub fn put_part(case: &mut Case, part: &Part<'_>) -> Result<ObjectId, OutOfMemory>
    requires room { length case.old.pool < 2 ^ 32 - 1 }
    requires whole { IsWhole part.now }
    ensures objects { (objects : List Object) → ShowsObjects objects case.old → OnOk result (ShowsObjects (with_object objects (object_of part.now)) case.new) }
    ensures kept { OnOk result (KeepsCase case.old case.new) }
    ensures err { OnErr result (case.new ≡ case.old) }
{
    case.add_part(part)
}

/// Puts a whole token behind the objects, unless it is one of them. After `OutOfMemory` the case is as before.
pub fn put_token(case: &mut Case, bytes: &[u8]) -> Result<ObjectId, OutOfMemory>
    requires room { length case.old.pool < 2 ^ 32 - 1 }
    requires whole { IsObject layout.token bytes.now }
    ensures objects { (objects : List Object) → ShowsObjects objects case.old → OnOk result (ShowsObjects (with_object objects (Token bytes.now)) case.new) }
    ensures kept { OnOk result (KeepsCase case.old case.new) }
    ensures err { OnErr result (case.new ≡ case.old) }
{
    case.add_token(bytes)
}
