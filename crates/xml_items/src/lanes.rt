// Sixteen bytes at once: how many of them, from the first, are of a class.
ghost use Rattle.std.specs.Prelude.{◌≡◌, ◌+◌, ◌≤◌, length};
ghost use Rattle.httparse.specs.Pieces.{IsRunIn, first_set};
ghost use Rattle.xml_items.specs.Runs.{is_common, is_ordinary, is_literal, is_unescaped};

use std::simd::prelude::*;

/// How many bytes are known at once.
pub const LANES: usize = 16;

// The place of the lowest bit that is set, or the number of lanes.
#[inline(always)]
fn first_set(mask: u64) -> usize
    ensures { result ≡ first_set mask 16 }
{
    if mask == 0 {
        LANES
    } else {
        mask.trailing_zeros() as usize
    }
}

// How many of the next sixteen bytes are ordinary.
#[inline(always)]
pub(crate) fn ordinary_lanes(bytes: &[u8], at: usize) -> usize
    requires { at + 16 ≤ length bytes.now }
    ensures { IsRunIn is_ordinary bytes.now at 16 result }
{
    let v = u8x16::from_slice(&bytes[at..]);
    let is_control = v.simd_lt(u8x16::splat(b' '))
        & v.simd_ne(u8x16::splat(b'\n'))
        & v.simd_ne(u8x16::splat(b'\t'));
    let is_markup = v.simd_eq(u8x16::splat(b'&'))
        | v.simd_eq(u8x16::splat(b'<'))
        | v.simd_eq(u8x16::splat(b'>'))
        | v.simd_eq(u8x16::splat(b']'));
    let stops = is_control | is_markup | v.simd_ge(u8x16::splat(0x7F));
    first_set(stops.to_bitmask())
}

// How many of the next sixteen bytes are ordinary or past ASCII. It is asked where to look first, so nothing is said of them.
#[inline(always)]
pub(crate) fn wide_lanes(bytes: &[u8], at: usize) -> usize
    requires { at + 16 ≤ length bytes.now }
    ensures { result ≤ 16 }
{
    let v = u8x16::from_slice(&bytes[at..]);
    let is_control = v.simd_lt(u8x16::splat(b' '))
        & v.simd_ne(u8x16::splat(b'\n'))
        & v.simd_ne(u8x16::splat(b'\t'));
    let is_markup = v.simd_eq(u8x16::splat(b'&'))
        | v.simd_eq(u8x16::splat(b'<'))
        | v.simd_eq(u8x16::splat(b'>'))
        | v.simd_eq(u8x16::splat(b']'));
    let stops = is_control | is_markup | v.simd_eq(u8x16::splat(0x7F));
    first_set(stops.to_bitmask()).min(LANES)
}

// How many of the next sixteen bytes are common in a text.
#[inline(always)]
pub(crate) fn common_lanes(bytes: &[u8], at: usize) -> usize
    requires { at + 16 ≤ length bytes.now }
    ensures { IsRunIn is_common bytes.now at 16 result }
{
    let v = u8x16::from_slice(&bytes[at..]);
    let is_control = v.simd_lt(u8x16::splat(b' '))
        & v.simd_ne(u8x16::splat(b'\n'))
        & v.simd_ne(u8x16::splat(b'\t'));
    let is_markup = v.simd_eq(u8x16::splat(b'&'))
        | v.simd_eq(u8x16::splat(b'<'))
        | v.simd_eq(u8x16::splat(b'>'))
        | v.simd_eq(u8x16::splat(b']'));
    let stops = is_control
        | is_markup
        | v.simd_eq(u8x16::splat(0x7F))
        | v.simd_eq(u8x16::splat(0xEF));
    first_set(stops.to_bitmask())
}

/// How many of the next sixteen bytes, from the first on, are none of `<`, `&` and CR.
#[inline(always)]
pub fn literal_lanes(bytes: &[u8], at: usize) -> usize
    requires { at + 16 ≤ length bytes.now }
    ensures { IsRunIn is_literal bytes.now at 16 result }
{
    let v = u8x16::from_slice(&bytes[at..]);
    let stops = v.simd_eq(u8x16::splat(b'<'))
        | v.simd_eq(u8x16::splat(b'&'))
        | v.simd_eq(u8x16::splat(b'\r'));
    first_set(stops.to_bitmask())
}

/// How many of the next sixteen bytes, from the first on, are none of `<`, `&`, `>` and CR.
#[inline(always)]
pub fn unescaped_lanes(bytes: &[u8], at: usize) -> usize
    requires { at + 16 ≤ length bytes.now }
    ensures { IsRunIn is_unescaped bytes.now at 16 result }
{
    let v = u8x16::from_slice(&bytes[at..]);
    let stops = v.simd_eq(u8x16::splat(b'<'))
        | v.simd_eq(u8x16::splat(b'&'))
        | v.simd_eq(u8x16::splat(b'>'))
        | v.simd_eq(u8x16::splat(b'\r'));
    first_set(stops.to_bitmask())
}
