//! Elements and values of simple kinds, by rows that were worked out by hand.

use der_values::{
    Layout, Rule, Tlv, bit_string, check, has_octets, integer, oid, piece, read_tlv, seconds,
    with_tag,
};

const WITH_FRACTION: [u8; 17] = *b"20300101000000.5Z";

fn element(tag: u8, content: &[u8]) -> Tlv<'_> {
    Tlv {
        tag,
        content,
        whole: content,
    }
}

fn is_bad(bytes: &[u8]) -> bool {
    match read_tlv(bytes, 0) {
        Ok(_) => false,
        Err(fault) => fault.at == 0,
    }
}

fn reads(bytes: &[u8], tag: u8, content: &[u8]) -> bool {
    match read_tlv(bytes, 0) {
        Ok(tlv) => tlv.tag == tag && tlv.content == content,
        Err(_) => false,
    }
}

fn refuses_other_forms() -> bool {
    is_bad(&[0x30, 0x80, 0, 0])
        && is_bad(&[0x04, 0x81, 0x01, 0xFF])
        && is_bad(&[0x1F, 0x01, 0x00])
        && is_bad(&[])
}

#[test]
fn elements_have_one_tag_byte_and_minimal_lengths(rt: HostRuntime) {
    assert!(rt; reads(&[0x30, 3, 2, 1, 5], 0x30, &[2, 1, 5]));
    assert!(rt; refuses_other_forms());
}

fn is_some_of(found: Option<&[u8]>, wanted: &[u8]) -> bool {
    match found {
        Some(bytes) => bytes == wanted,
        None => false,
    }
}

fn integers_are_minimal() -> bool {
    integer(&element(2, &[0, 5])).is_none()
        && is_some_of(integer(&element(2, &[0, 0x85])), &[0, 0x85])
}

fn identifiers_are_minimal() -> bool {
    is_some_of(oid(&element(6, &[0x55, 0x1D, 0x13])), &[0x55, 0x1D, 0x13])
        && oid(&element(6, &[0x55, 0x80, 0x13])).is_none()
}

fn bits_fill_their_bytes() -> bool {
    is_some_of(bit_string(&element(3, &[0, 7])), &[7]) && bit_string(&element(3, &[1, 6])).is_none()
}

#[test]
fn values_are_minimal(rt: HostRuntime) {
    assert!(rt; integers_are_minimal() && identifiers_are_minimal() && bits_fill_their_bytes());
}

fn is_at(tag: u8, text: &[u8], wanted: i64) -> bool {
    match seconds(&element(tag, text)) {
        Some(found) => found == wanted,
        None => false,
    }
}

fn is_no_time(tag: u8, text: &[u8]) -> bool {
    seconds(&element(tag, text)).is_none()
}

#[test]
fn times_are_counted_in_seconds(rt: HostRuntime) {
    assert!(rt;
        is_at(24, &WITH_FRACTION, 1_893_456_001) && is_at(23, b"500101000000Z", -631_152_000)
    );
    assert!(rt; is_no_time(23, b"491231235960Z") && is_no_time(24, b"99991231235959.1Z"));
}

#[test]
fn times_are_those_of_ten_thousand_years(rt: HostRuntime) {
    assert!(rt; is_at(24, b"00000101000000Z", -62_167_219_200));
    assert!(rt; is_at(24, b"99991231235959Z", 253_402_300_799));
}

fn fault_of(layout: &Layout<'_>, bytes: &[u8]) -> Option<usize> {
    match check(layout, bytes) {
        Ok(()) => None,
        Err(fault) => Some(fault.at),
    }
}

fn lists_numbers() -> bool {
    let number = Layout::Element(2, Rule::Integer, &Layout::Unread);
    let numbers = Layout::Many(&number);
    let list = Layout::Element(0x30, Rule::Any, &numbers);
    fault_of(&list, &[0x30, 6, 2, 1, 5, 2, 1, 7]).is_none()
        && fault_of(&list, &[0x30, 7, 2, 1, 5, 2, 2, 0, 7]) == Some(5)
}

const NUMBERS: [u8; 6] = [2, 1, 5, 2, 1, 7];

fn finds_numbers() -> bool {
    has_octets(&[7], &NUMBERS)
        && with_tag(3, &NUMBERS).is_none()
        && piece(1, &NUMBERS) == [2, 1, 7].as_slice()
}

#[test]
fn layouts_name_the_first_bad_element(rt: HostRuntime) {
    assert!(rt; lists_numbers() && finds_numbers());
}
