//! Signature methods and keys, by a policy (XML Signature 1.1, section 4.4.2).

ghost use Rattle.std.specs.Prelude.{◌≡◌, ◌≤◌, IfErr, OnOk, None, Some, option_map, encode_utf8_all, length};
ghost use Rattle.std.specs.Str.{chars};
ghost use Rattle.algorithms.specs.declared.signature_kinds.SignatureKind.{SignatureKind};
ghost use Rattle.policy_rules.specs.View.{rules};
ghost use Rattle.qualifying_props.specs.Whole.{IsWhole};
ghost use Rattle.signature_model.specs.Parts.{Certificate as IsCertificate};
ghost use Rattle.document_model.specs.Items.{or_else};
ghost use Rattle.signature_checks.specs.Keys.{has_key_of, key_test, method_test};
ghost use Rattle.signature_checks.specs.Keys.{method_kind};

use crate::codes::Code;
use algorithms::SignatureKind;
use policy_rules::Policy;
use x509_certs::read_certificate;

// Whether the key of a whole certificate is of a kind.
fn has_key_of(kind: SignatureKind, certificate: &[u8]) -> bool
    requires { IsWhole IsCertificate certificate.now }
    ensures { result ≡ has_key_of kind certificate.now }
{
    match read_certificate(certificate) {
        Ok(certificate) => certificate.key_oid() == kind.oid(),
        Err(_) => unreachable!(),
    }
}

/// What stands against a signature method and the certificate of a signer by a policy: the policy doesn't list the method (A17), or the key
/// is of another kind (A18).
pub fn judge_method(policy: &Policy, method: &str, certificate: &[u8]) -> Option<Code>
    requires { IsWhole IsCertificate certificate.now }
    ensures { result ≡ or_else (method_test (method_kind (rules policy.now) (chars method.now))) (key_test (method_kind (rules policy.now) (chars method.now)) certificate.now) }
{
    match policy.kind_of_uri(method) {
        None => Some(Code::UnknownMethod),
        Some(kind) => {
            if has_key_of(kind, certificate) {
                None
            } else {
                Some(Code::KeyKind)
            }
        }
    }
}
