//! What a file of a command is for.

ghost use Rattle.std.specs.Prelude.{◌≡◌, ◌^◌, ◌<◌, Bool};

/// What a file of a command is for.
#[derive(Clone, Copy, Debug)]
pub enum Role {
    /// The XML document.
    Document,
    /// The policy.
    Policy,
    /// A certificate for the signature that is prepared.
    Certificate,
    /// A signature value that is attached.
    Value,
    /// A signature time-stamp that is attached.
    Stamp,
    /// Certificates and revocation lists that are attached.
    Data,
    /// An archive time-stamp that is attached.
    Archive,
    /// The octets of a Reference to something outside of the document.
    External,
    /// Further certificates and revocation lists, for a validation alone.
    More,
}

impl Role {
    ghost use Rattle.whole_files.specs.Roles.{limit_of, is_document, is_policy, is_certificate, is_external};

    /// The most bytes that such a file may have.
    pub fn limit(self) -> u64
        ensures limit { result ≡ limit_of self }
        ensures small { result < 2 ^ 32 }
    {
        match self {
            Role::Document => 16777216,
            Role::External => 33554432,
            Role::Data | Role::More => 4194304,
            Role::Policy | Role::Certificate | Role::Value | Role::Stamp | Role::Archive => 1048576,
        }
    }

    // Whether it is the document.
    pub(crate) fn is_document(self) -> bool
        ensures { result ≡ is_document self }
    {
        match self {
            Role::Document => true,
            _ => false,
        }
    }

    // Whether it is the policy.
    pub(crate) fn is_policy(self) -> bool
        ensures { result ≡ is_policy self }
    {
        match self {
            Role::Policy => true,
            _ => false,
        }
    }

    /// Whether it is a certificate for the signature that is prepared.
    pub fn is_certificate(self) -> bool
        ensures { result ≡ is_certificate self }
    {
        match self {
            Role::Certificate => true,
            _ => false,
        }
    }

    /// Whether its octets are those of a Reference to something outside of the document.
    pub fn is_external(self) -> bool
        ensures { result ≡ is_external self }
    {
        match self {
            Role::External => true,
            _ => false,
        }
    }
}
