//! The layout of a time-stamp token: RFC 5652, RFC 3161, RFC 5816 and RFC 5035 in this profile.

use Layout::{Both, Element, Many, Nothing, Told, Unread, WholeElement};
use der_values::{KnownOid, Layout, Rule, Test};
use x509_certs::{ALGORITHM, CERTIFICATE};

// Parameters of an algorithm.
const SOMETHING: Layout<'static> = Told(Test::Comes, &WholeElement, &Nothing);

const INTEGER: Layout<'static> = Element(0x02, Rule::Integer, &Unread);

const OCTETS: Layout<'static> = Element(0x04, Rule::Any, &Unread);

const OID: Layout<'static> = Element(0x06, Rule::Oid, &Unread);

const SEQUENCE: Layout<'static> = Element(0x30, Rule::Any, &Unread);

const DIGEST: Layout<'static> = Element(
    0x30,
    Rule::Any,
    &Both(&Element(0x06, Rule::Digest, &Unread), &SOMETHING),
);

const CERTIFICATE_ID: Layout<'static> = Element(
    0x30,
    Rule::Any,
    &Both(
        &Told(Test::Tag(0x30), &DIGEST, &Nothing),
        &Both(&OCTETS, &Told(Test::Tag(0x30), &SEQUENCE, &Nothing)),
    ),
);

const SIGNING_CERTIFICATE: Layout<'static> = Element(
    0x30,
    Rule::Any,
    &Both(
        &Element(0x30, Rule::Any, &Both(&CERTIFICATE_ID, &Many(&SEQUENCE))),
        &Told(Test::Tag(0x30), &SEQUENCE, &Nothing),
    ),
);

const ATTRIBUTE_VALUES: Layout<'static> = Told(
    Test::FirstIs(KnownOid::ContentType),
    &Element(
        0x31,
        Rule::Any,
        &Element(0x06, Rule::Named(KnownOid::TstInfo), &Unread),
    ),
    &Told(
        Test::FirstIs(KnownOid::MessageDigest),
        &Element(0x31, Rule::Any, &OCTETS),
        &Told(
            Test::FirstIs(KnownOid::SigningCertificate),
            &Element(0x31, Rule::Any, &SIGNING_CERTIFICATE),
            &Element(0x31, Rule::Any, &Unread),
        ),
    ),
);

const ATTRIBUTE: Layout<'static> = Element(
    0x30,
    Rule::RequiredOnce,
    &Both(&OID, &ATTRIBUTE_VALUES),
);

const ATTRIBUTES: Layout<'static> = Both(
    &Many(&ATTRIBUTE),
    &Both(
        &Told(Test::Has(KnownOid::ContentType), &Nothing, &WholeElement),
        &Both(
            &Told(Test::Has(KnownOid::MessageDigest), &Nothing, &WholeElement),
            &Told(
                Test::Has(KnownOid::SigningCertificate),
                &Nothing,
                &WholeElement,
            ),
        ),
    ),
);

const SIGNER_INFO: Layout<'static> = Both(
    &INTEGER,
    &Both(
        &Element(0x30, Rule::Any, &Both(&SEQUENCE, &INTEGER)),
        &Both(
            &DIGEST,
            &Both(
                &Element(0xA0, Rule::Any, &ATTRIBUTES),
                &Both(
                    &ALGORITHM,
                    &Both(
                        &OCTETS,
                        &Told(
                            Test::Tag(0xA1),
                            &Element(0xA1, Rule::Any, &Unread),
                            &Nothing,
                        ),
                    ),
                ),
            ),
        ),
    ),
);

const ACCURACY: Layout<'static> = Both(
    &Told(
        Test::Tag(0x02),
        &Element(0x02, Rule::Count, &Unread),
        &Nothing,
    ),
    &Both(
        &Told(
            Test::Tag(0x80),
            &Element(0x80, Rule::Thousandth, &Unread),
            &Nothing,
        ),
        &Told(
            Test::Tag(0x81),
            &Element(0x81, Rule::Thousandth, &Unread),
            &Nothing,
        ),
    ),
);

const EXTENSION: Layout<'static> = Element(
    0x30,
    Rule::NotTwice,
    &Both(
        &OID,
        &Both(
            &Told(
                Test::Tag(0x01),
                &Element(0x01, Rule::False, &Unread),
                &Nothing,
            ),
            &OCTETS,
        ),
    ),
);

const BEHIND_TIME: Layout<'static> = Both(
    &Told(
        Test::Tag(0x30),
        &Element(0x30, Rule::Any, &ACCURACY),
        &Nothing,
    ),
    &Both(
        &Told(
            Test::Tag(0x01),
            &Element(0x01, Rule::Boolean, &Unread),
            &Nothing,
        ),
        &Both(
            &Told(Test::Tag(0x02), &INTEGER, &Nothing),
            &Both(
                &Told(
                    Test::Tag(0xA0),
                    &Element(0xA0, Rule::Any, &Unread),
                    &Nothing,
                ),
                &Told(
                    Test::Tag(0xA1),
                    &Element(0xA1, Rule::Any, &Many(&EXTENSION)),
                    &Nothing,
                ),
            ),
        ),
    ),
);

const STAMP_INFO: Layout<'static> = Element(
    0x30,
    Rule::Any,
    &Both(
        &Element(0x02, Rule::Number(1), &Unread),
        &Both(
            &OID,
            &Both(
                &Element(0x30, Rule::Any, &Both(&DIGEST, &OCTETS)),
                &Both(
                    &INTEGER,
                    &Both(&Element(0x18, Rule::StampTime, &Unread), &BEHIND_TIME),
                ),
            ),
        ),
    ),
);

const CERTIFICATES: Layout<'static> = Element(
    0xA0,
    Rule::Any,
    &Many(&Told(Test::Tag(0x30), &CERTIFICATE, &WholeElement)),
);

const SIGNED_DATA: Layout<'static> = Both(
    &INTEGER,
    &Both(
        &Element(0x31, Rule::Any, &Unread),
        &Both(
            &Element(
                0x30,
                Rule::Any,
                &Both(
                    &Element(0x06, Rule::Named(KnownOid::TstInfo), &Unread),
                    &Element(0xA0, Rule::Any, &Element(0x04, Rule::Any, &STAMP_INFO)),
                ),
            ),
            &Both(
                &Told(Test::Tag(0xA0), &CERTIFICATES, &Nothing),
                &Both(
                    &Told(
                        Test::Tag(0xA1),
                        &Element(0xA1, Rule::Any, &Unread),
                        &Nothing,
                    ),
                    &Element(0x31, Rule::Any, &Element(0x30, Rule::Any, &SIGNER_INFO)),
                ),
            ),
        ),
    ),
);

/// A token.
pub(crate) const TOKEN: Layout<'static> = Element(
    0x30,
    Rule::Any,
    &Both(
        &Element(0x06, Rule::Named(KnownOid::SignedData), &Unread),
        &Element(0xA0, Rule::Any, &Element(0x30, Rule::Any, &SIGNED_DATA)),
    ),
);
