//! A certificate and a CRL that are altered at one place, and the first bad element. Places were counted by hand.

use crate::pieces::{CA, USAGE, certificate, extensions, list};
use std::alloc::Global;
use x509_certs::{read_certificate, read_crl};

// Whether the first bad element of a certificate with one piece changed stands there.
fn is_bad(alloc: Global, changed: usize, new: &[u8], at: usize) -> bool {
    match certificate(alloc, changed, new) {
        Ok(whole) => match read_certificate(whole.as_slice()) {
            Ok(_) => false,
            Err(fault) => fault.at == at,
        },
        Err(_) => false,
    }
}

fn is_bad_with(alloc: Global, more: &[u8], at: usize) -> bool {
    match extensions(alloc, &USAGE, more) {
        Ok(list) => is_bad(alloc, 7, list.as_slice(), at),
        Err(_) => false,
    }
}

// A wrong tag; a length that isn't minimal; a padded INTEGER.
#[test]
fn elements_that_are_not_legal(rt: HostRuntime) {
    let alloc = rt.alloc();
    assert!(rt; is_bad(alloc, 1, &[3, 1, 7], 11) && is_bad(alloc, 1, &[2, 0x81, 1, 7], 11));
    assert!(rt; is_bad(alloc, 1, &[2, 2, 0, 7], 11));
}

const MONTH_13: [u8; 32] = *b"\x30\x1E\x17\x0D301301000000Z\x17\x0D400101000000Z";

// An indefinite length; version 2; month 13.
#[test]
fn values_that_are_not_allowed(rt: HostRuntime) {
    let alloc = rt.alloc();
    assert!(rt;
        is_bad(alloc, 3, &[0x30, 0x80, 0, 0], 29) && is_bad(alloc, 0, &[0xA0, 3, 2, 1, 1], 8)
    );
    assert!(rt; is_bad(alloc, 4, &MONTH_13, 46));
}

// Another algorithm outside; no signature.
#[test]
fn parts_outside_what_is_signed(rt: HostRuntime) {
    let alloc = rt.alloc();
    assert!(rt; is_bad(alloc, 8, &[0x30, 3, 6, 1, 0x2A], 156) && is_bad(alloc, 9, &[], 0));
}

// An extension twice; critical 01.
#[test]
fn extensions_that_may_not_stand(rt: HostRuntime) {
    let alloc = rt.alloc();
    assert!(rt; is_bad_with(alloc, &CA, 156));
    assert!(rt;
        is_bad_with(
            alloc,
            &[0x30, 0x0A, 6, 3, 0x55, 0x1D, 0x20, 1, 1, 1, 4, 0],
            163
        )
    );
}

fn is_bad_list(alloc: Global, changed: usize, new: &[u8], at: usize) -> bool {
    match list(alloc, changed, new) {
        Ok(whole) => match read_crl(whole.as_slice()) {
            Ok(_) => false,
            Err(fault) => fault.at == at,
        },
        Err(_) => false,
    }
}

const SECOND_60: [u8; 20] = *b"\x30\x12\x02\x01\x07\x17\x0D300201000060Z";

// Version 1; month 13; an entry's second 60.
#[test]
fn values_of_a_list_that_are_not_allowed(rt: HostRuntime) {
    let alloc = rt.alloc();
    assert!(rt;
        is_bad_list(alloc, 0, &[2, 1, 0], 5) && is_bad_list(alloc, 1, b"\x17\x0D301301000000Z", 38)
    );
    assert!(rt; is_bad_list(alloc, 3, &SECOND_60, 80));
}

// An unknown element behind the entries; another algorithm outside.
#[test]
fn parts_of_a_list_that_may_not_stand(rt: HostRuntime) {
    let alloc = rt.alloc();
    assert!(rt;
        is_bad_list(alloc, 2, &[5, 0], 115) && is_bad_list(alloc, 4, &[0x30, 3, 6, 1, 0x2A], 114)
    );
}
