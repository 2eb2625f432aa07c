//! Why a text is no policy.

ghost use Rattle.std.specs.Prelude.{◌≡◌, ℕ, Err};
ghost use Rattle.policy_rules.specs.Faults.{field, IsTold, IsFieldFault};

use std::alloc::{AllocError, AllocFailed, Global};
use xa_io::Name;

/// The first thing that keeps a text from being a policy. Faults of fields come before those of anchors.
#[derive(Debug, Drop)]
pub enum PolicyFault {
    /// The bytes aren't UTF-8, or no TOML.
    Toml,
    /// The first field, in the order `version`, `anchors`, `kind`, `digest`, that is missing or isn't as it has to be; else the
    /// least unknown field of the table in the order of bytes.
    Field { name: Name },
    /// The first anchor, counted from 1, that isn't strict base64 of a whole certificate.
    Anchor { index: u32 },
    /// Memory could not be had.
    OutOfMemory,
}

impl From<AllocError> for PolicyFault {
    ghost use Rattle.policy_rules.specs.declared.fault.PolicyFault.TheVariants.{OutOfMemory};

    ghost from_gives = { λ _ e. e ≡ OutOfMemory };

    fn from(_error: AllocError) -> PolicyFault {
        PolicyFault::OutOfMemory
    }
}

impl<T: Drop> From<AllocFailed<T>> for PolicyFault {
    ghost use Rattle.policy_rules.specs.declared.fault.PolicyFault.TheVariants.{OutOfMemory};

    ghost from_gives = { λ _ e. e ≡ OutOfMemory };

    fn from(_error: AllocFailed<T>) -> PolicyFault {
        PolicyFault::OutOfMemory
    }
}

/// Why a field has no value.
#[derive(Clone, Copy, Debug)]
pub(crate) enum FieldError {
    Refused,
    OutOfMemory,
}

impl From<AllocError> for FieldError {
    ghost use Rattle.policy_rules.specs.declared.fault.FieldError.TheVariants.{OutOfMemory};

    ghost from_gives = { λ _ e. e ≡ OutOfMemory };

    fn from(_error: AllocError) -> FieldError {
        FieldError::OutOfMemory
    }
}

impl<T: Drop> From<AllocFailed<T>> for FieldError {
    ghost use Rattle.policy_rules.specs.declared.fault.FieldError.TheVariants.{OutOfMemory};

    ghost from_gives = { λ _ e. e ≡ OutOfMemory };

    fn from(_error: AllocFailed<T>) -> FieldError {
        FieldError::OutOfMemory
    }
}

/// The fault that a field of this name is refused.
pub(crate) fn of_name(alloc: Global, name: &str) -> PolicyFault
    ensures { IsTold {Y = ℕ} result (Err (field name.now)) }
{
    match Name::new(alloc, name) {
        Ok(name) => PolicyFault::Field { name },
        Err(_) => PolicyFault::OutOfMemory,
    }
}

/// The fault of a field of this name.
pub(crate) fn of_field(alloc: Global, name: &str, error: FieldError) -> PolicyFault
    ensures { IsFieldFault name.now error result }
{
    match error {
        FieldError::Refused => of_name(alloc, name),
        FieldError::OutOfMemory => PolicyFault::OutOfMemory,
    }
}
