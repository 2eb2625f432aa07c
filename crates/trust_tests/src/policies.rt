//! Texts of policies, each altered at one place.

use algorithms::{DigestKind, SignatureKind};
use policy_rules::{Policy, PolicyFault, read_policy};
use std::alloc::{AllocError, Global};
use std::test::Fail;

// A certificate that was worked out elsewhere, in base64.
const CERTIFICATE: &str =
    "MIGtMIGWoAMCAQICAQcwDQYLKoZIhvcNAQkQAxEwDTELMAkGA1UEAwwCSzEwIBcNMzAwMTAxMDAwMDAwWhgPMjA3MDAxMDEwMDAwMDBaMA0xCzAJBgNVBAMMAksxMBUwDQYLKoZIhvcNAQkQAxEDBAABAgOjJjAkMBIGA1UdEwEB/wQIMAYBAf8CAQMwDgYDVR0PAQH/BAQDAgIEMA0GCyqGSIb3DQEJEAMRAwMACQk=";

// A kind and a digest that a policy may have.
const TABLES: &str =
    "[[kind]]\nname = \"hss\"\nuri = [\"urn:sample:hss\"]\nuntil = \"2060-01-01T00:00:00Z\"\n[[digest]]\nname = \"sha256\"\n";

// The same, and a field that no digest has.
const EXTRA: &str =
    "[[kind]]\nname = \"hss\"\nuri = [\"urn:sample:hss\"]\n[[digest]]\nname = \"sha256\"\nextra = 1\n";

// Two kinds with one URI.
const TWICE: &str =
    "[[kind]]\nname = \"hss\"\nuri = [\"urn:sample:hss\"]\n[[kind]]\nname = \"xmss\"\nuri = [\"urn:other\", \"urn:sample:hss\"]\n[[digest]]\nname = \"sha256\"\n";

// All kinds and digests.
const ALL: &str =
    "[[kind]]\nname = \"hss\"\nuri = [\"urn:a\"]\n[[kind]]\nname = \"xmss\"\nuri = [\"urn:b\"]\n[[kind]]\nname = \"xmssmt\"\nuri = [\"urn:c\"]\n[[digest]]\nname = \"sha256\"\n[[digest]]\nname = \"sha384\"\n[[digest]]\nname = \"sha512\"\n";

// A kind that there isn't.
const OTHER: &str =
    "[[kind]]\nname = \"xmss-mt\"\nuri = [\"urn:c\"]\n[[digest]]\nname = \"sha256\"\n";

// A policy's text with so many anchors, and further ones.
fn text(
    alloc: Global,
    head: &str,
    count: u8,
    further: &str,
    tables: &str,
) -> Result<String, AllocError> {
    let mut text = String::new(alloc);
    text.push_str(head)?;
    text.push_str("anchors = [")?;
    for _ in 0..count {
        text.push_str("\"")?;
        text.push_str(CERTIFICATE)?;
        text.push_str("\",")?;
    }
    text.push_str(further)?;
    text.push_str("]\n")?;
    text.push_str(tables)?;
    Ok(text)
}

// Whether a fault is this one: the name of a field, the number of an anchor, or `toml`.
fn is_fault(fault: &PolicyFault, want: &str) -> bool {
    match fault {
        PolicyFault::Toml => want == "toml",
        PolicyFault::Field { name } => name.as_str() == want,
        PolicyFault::Anchor { index } => *index == 2 && want == "2",
        PolicyFault::OutOfMemory => false,
    }
}

// Whether this is wrong with a text of so many anchors: a fault, or `none`.
fn is_wrong(
    alloc: Global,
    head: &str,
    count: u8,
    further: &str,
    tables: &str,
    want: &str,
) -> Result<bool, AllocError> {
    let text = text(alloc, head, count, further, tables)?;
    match read_policy(alloc, text.as_bytes()) {
        Ok(_) => Ok(want == "none"),
        Err(fault) => Ok(is_fault(&fault, want)),
    }
}

// The head, the number of anchors, further anchors, the tables, and what is wrong.
const ROWS: [(&str, u8, &str, &str, &str); 12] = [
    ("version = 1\n", 1, "", TABLES, "none"),
    ("version = 2\n", 1, "", TABLES, "none"),
    ("version = 0\n", 1, "", TABLES, "version"),
    ("version = 3\n", 1, "", TABLES, "version"),
    ("version = 1\n", 1, "", ALL, "none"),
    ("version = 1\n", 1, "", OTHER, "kind"),
    ("version = 1\n", 1, "", TWICE, "kind"),
    ("extra = 1\nversion = 1\n", 1, "", TABLES, "extra"),
    ("version = 1\n", 1, "", EXTRA, "digest"),
    ("version =\n", 1, "", TABLES, "toml"),
    ("version = 1\n", 64, "", TABLES, "none"),
    ("version = 1\n", 65, "", TABLES, "anchors"),
];

#[test]
fn first_faults(rt: HostRuntime) -> Result<(), Fail> {
    for (head, count, further, tables, want) in ROWS {
        assert!(rt; is_wrong(rt.alloc(), head, count, further, tables, want)?);
    }
    assert!(rt; is_wrong(rt.alloc(), "version = 1\n", 1, "\"MIGt\"", TABLES, "2")?);
    Ok(())
}

fn policy(alloc: Global, head: &str, tables: &str) -> Result<Policy, Fail> {
    let text = text(alloc, head, 1, "", tables)?;
    match read_policy(alloc, text.as_bytes()) {
        Ok(policy) => Ok(policy),
        Err(_) => Err(Fail::new("no policy")),
    }
}

// Whether a policy names HSS by its URI, and no other, and accepts it before its end alone.
fn accepts_hss_to_its_end(policy: &Policy) -> bool {
    policy.kind_of_uri("urn:sample:hss") == Some(SignatureKind::Hss)
        && policy.kind_of_uri("urn:sample:xmss").is_none()
        && policy.kind_accepted(SignatureKind::Hss, 2_840_140_799)
        && !policy.kind_accepted(SignatureKind::Hss, 2_840_140_800)
        && !policy.kind_accepted(SignatureKind::Xmss, 0)
}

fn accepts_sha256_alone(policy: &Policy) -> bool {
    policy.digest_accepted(DigestKind::Sha256, 2_840_140_800)
        && !policy.digest_accepted(DigestKind::Sha512, 0)
}

fn has_one_anchor(policy: &Policy) -> bool {
    policy.anchors() == 1 && policy.anchor(0).serial() == [7].as_slice()
}

#[test]
fn what_a_policy_says(rt: HostRuntime) -> Result<(), Fail> {
    let policy = policy(rt.alloc(), "version = 1\n", TABLES)?;
    assert!(rt; policy.version() == 1 && has_one_anchor(&policy));
    assert!(rt; accepts_hss_to_its_end(&policy) && accepts_sha256_alone(&policy));
    Ok(())
}

#[test]
fn all_kinds_in_version_2(rt: HostRuntime) -> Result<(), Fail> {
    let policy = policy(rt.alloc(), "version = 2\n", ALL)?;
    assert!(rt; policy.version() == 2);
    assert!(rt; policy.kind_of_uri("urn:c") == Some(SignatureKind::XmssMt));
    assert!(rt; policy.kind_accepted(SignatureKind::XmssMt, 2_840_140_800));
    Ok(())
}
