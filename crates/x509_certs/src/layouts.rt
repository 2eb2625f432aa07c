//! The layouts of certificates and CRLs.

use Layout::{Both, Element, Many, Nothing, Told, Unread, WholeElement};
use der_values::{KnownOid, Layout, Rule, Test};

const OID: Layout<'static> = Element(0x06, Rule::Oid, &Unread);

const BIT_STRING: Layout<'static> = Element(0x03, Rule::BitString, &Unread);

const BOOLEAN: Layout<'static> = Element(0x01, Rule::Boolean, &Unread);

const INTEGER: Layout<'static> = Element(0x02, Rule::Integer, &Unread);

const SEQUENCE: Layout<'static> = Element(0x30, Rule::Any, &Unread);

const OCTETS: Layout<'static> = Element(0x04, Rule::Any, &Unread);

const UTC: Layout<'static> = Element(0x17, Rule::Time, &Unread);

const GENERAL: Layout<'static> = Element(0x18, Rule::Time, &Unread);

const TIME: Layout<'static> = Told(Test::Tag(0x17), &UTC, &GENERAL);

const IN_ALGORITHM: Layout<'static> = Both(&OID, &Told(Test::Comes, &WholeElement, &Nothing));

/// An AlgorithmIdentifier.
pub const ALGORITHM: Layout<'static> = Element(0x30, Rule::Any, &IN_ALGORITHM);

const BASIC_CONSTRAINTS: Layout<'static> = Element(
    0x30,
    Rule::Any,
    &Both(
        &Told(Test::Tag(0x01), &BOOLEAN, &Nothing),
        &Told(
            Test::Tag(0x02),
            &Element(0x02, Rule::Count, &Unread),
            &Nothing,
        ),
    ),
);

const PURPOSES: Layout<'static> = Element(0x30, Rule::Any, &Many(&OID));

const KEY_USAGE: Layout<'static> = Element(0x03, Rule::NamedBits, &Unread);

const EXTENSION_VALUE: Layout<'static> = Told(
    Test::FirstIs(KnownOid::BasicConstraints),
    &Element(0x04, Rule::Any, &BASIC_CONSTRAINTS),
    &Told(
        Test::FirstIs(KnownOid::KeyUsage),
        &Element(0x04, Rule::Any, &KEY_USAGE),
        &Told(
            Test::FirstIs(KnownOid::ExtKeyUsage),
            &Element(0x04, Rule::Any, &PURPOSES),
            &OCTETS,
        ),
    ),
);

const CRITICAL: Layout<'static> = Told(Test::Tag(0x01), &BOOLEAN, &Nothing);

const EXTENSION: Layout<'static> = Element(
    0x30,
    Rule::NotTwice,
    &Both(&OID, &Both(&CRITICAL, &EXTENSION_VALUE)),
);

const PLAIN_EXTENSION: Layout<'static> = Element(
    0x30,
    Rule::NotTwice,
    &Both(&OID, &Both(&CRITICAL, &OCTETS)),
);

const EXTENSIONS: Layout<'static> = Element(0x30, Rule::Any, &Many(&EXTENSION));

const PLAIN_EXTENSIONS: Layout<'static> = Element(0x30, Rule::Any, &Many(&PLAIN_EXTENSION));

const VERSION_3: Layout<'static> = Element(
    0xA0,
    Rule::Any,
    &Element(0x02, Rule::Number(2), &Unread),
);

const VALIDITY: Layout<'static> = Element(0x30, Rule::Any, &Both(&TIME, &TIME));

const KEY: Layout<'static> = Element(0x30, Rule::Any, &Both(&ALGORITHM, &BIT_STRING));

const BEHIND_KEY: Layout<'static> = Both(
    &Told(
        Test::Tag(0x81),
        &Element(0x81, Rule::Any, &Unread),
        &Nothing,
    ),
    &Both(
        &Told(
            Test::Tag(0x82),
            &Element(0x82, Rule::Any, &Unread),
            &Nothing,
        ),
        &Told(
            Test::Tag(0xA3),
            &Element(0xA3, Rule::Any, &EXTENSIONS),
            &Nothing,
        ),
    ),
);

const TO_BE_SIGNED: Layout<'static> = Both(
    &VERSION_3,
    &Both(
        &INTEGER,
        &Both(
            &ALGORITHM,
            &Both(
                &SEQUENCE,
                &Both(&VALIDITY, &Both(&SEQUENCE, &Both(&KEY, &BEHIND_KEY))),
            ),
        ),
    ),
);

/// A certificate.
pub const CERTIFICATE: Layout<'static> = Element(
    0x30,
    Rule::Any,
    &Both(
        &Element(0x30, Rule::Any, &TO_BE_SIGNED),
        &Both(&Element(0x30, Rule::SameAs(2), &IN_ALGORITHM), &BIT_STRING),
    ),
);

const ENTRY: Layout<'static> = Element(
    0x30,
    Rule::Any,
    &Both(
        &INTEGER,
        &Both(&TIME, &Told(Test::Tag(0x30), &PLAIN_EXTENSIONS, &Nothing)),
    ),
);

const NEXT_UPDATE: Layout<'static> = Told(
    Test::Tag(0x17),
    &TIME,
    &Told(Test::Tag(0x18), &TIME, &Nothing),
);

const ENTRIES: Layout<'static> = Told(
    Test::Tag(0x30),
    &Element(0x30, Rule::Any, &Many(&ENTRY)),
    &Nothing,
);

const LIST_EXTENSIONS: Layout<'static> = Told(
    Test::Tag(0xA0),
    &Element(0xA0, Rule::Any, &PLAIN_EXTENSIONS),
    &Nothing,
);

const LIST_TO_BE_SIGNED: Layout<'static> = Both(
    &Element(0x02, Rule::Number(1), &Unread),
    &Both(
        &ALGORITHM,
        &Both(
            &SEQUENCE,
            &Both(
                &TIME,
                &Both(&NEXT_UPDATE, &Both(&ENTRIES, &LIST_EXTENSIONS)),
            ),
        ),
    ),
);

/// A CRL.
pub(crate) const REVOCATION_LIST: Layout<'static> = Element(
    0x30,
    Rule::Any,
    &Both(
        &Element(0x30, Rule::Any, &LIST_TO_BE_SIGNED),
        &Both(&Element(0x30, Rule::SameAs(1), &IN_ALGORITHM), &BIT_STRING),
    ),
);
