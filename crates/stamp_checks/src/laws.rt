//! A law of what stands against the next time-stamp, over the definitions alone.

ghost use Rattle.stamp_checks.specs.Laws.{StampFaultsAreOne};

/// At most one fault stands against octets as the token of the next time-stamp, and none against those that are taken. Want of memory is
/// told of any.
pub fn stamp_faults_are_one()
    ensures { StampFaultsAreOne }
{}
