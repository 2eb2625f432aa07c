//! Where signed properties stand when they are written.

ghost use Rattle.std.specs.Prelude.{◌≡◌};

/// Where signed properties stand when they are written: in the signature, whose declarations are in scope, or alone, as their canonical
/// text has them (Exclusive XML Canonicalization 1.0, section 3).
#[derive(Clone, Copy)]
pub enum Standing {
    InSignature,
    Alone,
}

impl Standing {
    ghost use Rattle.signature_drafts.specs.Properties.{attributes_octets};
    ghost use Rattle.signature_drafts.specs.Standing.{declared_ds, declared_xades};

    /// The declaration of the prefix `ds` on an element that uses it, with a space before it; none where it is in scope.
    pub fn ds(self) -> &'static str
        ensures { result.now ≡ attributes_octets (declared_ds self) }
    {
        match self {
            Standing::InSignature => "",
            Standing::Alone => " xmlns:ds=\"http://www.w3.org/2000/09/xmldsig#\"",
        }
    }

    /// The same of the prefix `xades`.
    pub fn xades(self) -> &'static str
        ensures { result.now ≡ attributes_octets (declared_xades self) }
    {
        match self {
            Standing::InSignature => "",
            Standing::Alone => " xmlns:xades=\"http://uri.etsi.org/01903/v1.3.2#\"",
        }
    }
}
