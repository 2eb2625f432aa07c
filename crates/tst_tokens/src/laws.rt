//! Laws of tokens, over the definitions alone.

ghost use Rattle.tst_tokens.specs.Laws.{DigestsAreOfKinds, PartsStand, TokensAreApart};

/// The digest algorithms that a token may name are those of `DigestKind`, and no other.
pub fn digests_are_of_kinds()
    ensures { DigestsAreOfKinds }
{}

/// In a whole token the parts stand that are named.
pub fn parts_stand()
    ensures { PartsStand }
{}

/// No octets are both a token and a certificate, or a token and a CRL.
pub fn tokens_are_apart()
    ensures { TokensAreApart }
{}
