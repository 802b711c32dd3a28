ghost use Rattle.std.specs.Prelude.{◌≡◌, ◌≢◌, ◌∷◌, [], ◌<◌, ◌≤◌, length, map, take, get_or};
ghost use Rattle.std.specs.List.{prefix_len};
ghost use Rattle.std.specs.Simd.Lanes.{mask_l};
ghost use Rattle.json.specs.Print.{escape, escape_byte};
ghost use Rattle.json.specs.Run.{is_plain, is_stop};

use std::simd::prelude::*;

/// How many bytes at the front have no escape, up to the first that has one.
#[inline]
pub fn plain_run(bytes: &[u8]) -> usize
    ensures within { result ≤ length bytes.now }
    ensures plain { escape (take result bytes.now) ≡ take result bytes.now }
    ensures ends { result < length bytes.now
        → escape_byte (get_or bytes.now result 0) ≢ get_or bytes.now result 0 ∷ [] }
{
    if bytes.len() < 16 {
        run_below_16(bytes)
    } else {
        run_from_16(bytes)
    }
}

/// The same, by loads of 16 bytes. The last one ends with the bytes, and so may look at some again.
#[inline]
fn run_from_16(bytes: &[u8]) -> usize
    requires { 16 ≤ length bytes.now }
    ensures { result ≡ prefix_len is_plain bytes.now }
{
    let mut at = 0;
    while bytes.len() - at > 16 {
        let found = stops_16(u8x16::from_slice(&bytes[at..]));
        if found != 0 {
            return at + found.trailing_zeros() as usize;
        }
        at += 16;
    }
    let last = bytes.len() - 16;
    let behind = stops_16(u8x16::from_slice(&bytes[last..]));
    if behind != 0 {
        return last + behind.trailing_zeros() as usize;
    }
    bytes.len()
}

/// The same, by two loads of eight bytes, which may overlap.
#[inline(never)]
fn run_below_16(bytes: &[u8]) -> usize
    requires { length bytes.now < 16 }
    ensures { result ≡ prefix_len is_plain bytes.now }
{
    if bytes.len() < 8 {
        return run_below_8(bytes);
    }
    let found = stops_8(u8x8::from_slice(&bytes[0..]));
    if found != 0 {
        return found.trailing_zeros() as usize;
    }
    let last = bytes.len() - 8;
    let behind = stops_8(u8x8::from_slice(&bytes[last..]));
    if behind != 0 {
        return last + behind.trailing_zeros() as usize;
    }
    bytes.len()
}

/// The same, by two loads of four bytes, which may overlap.
#[inline]
fn run_below_8(bytes: &[u8]) -> usize
    requires { length bytes.now < 8 }
    ensures { result ≡ prefix_len is_plain bytes.now }
{
    if bytes.len() < 4 {
        return run_below_4(bytes);
    }
    let found = stops_4(u8x4::from_slice(&bytes[0..]));
    if found != 0 {
        return found.trailing_zeros() as usize;
    }
    let last = bytes.len() - 4;
    let behind = stops_4(u8x4::from_slice(&bytes[last..]));
    if behind != 0 {
        return last + behind.trailing_zeros() as usize;
    }
    bytes.len()
}

/// The same, byte by byte.
#[inline]
fn run_below_4(bytes: &[u8]) -> usize
    ensures { result ≡ prefix_len is_plain bytes.now }
{
    let mut at = 0;
    while at < bytes.len() && !has_escape(bytes[at]) {
        at += 1;
    }
    at
}

fn has_escape(byte: u8) -> bool
    ensures { result ≡ is_stop byte }
{
    byte < 32 || byte == b'"' || byte == b'\\'
}

/// A bit for each byte, the first one lowest, that tells whether it has an escape.
#[inline(always)]
fn stops_16(v: u8x16) -> u64
    ensures { result ≡ mask_l (map is_stop v) }
{
    (v.simd_eq(u8x16::splat(b'"'))
        | v.simd_eq(u8x16::splat(b'\\'))
        | v.simd_lt(u8x16::splat(32))).to_bitmask()
}

/// The same.
#[inline(always)]
fn stops_8(v: u8x8) -> u64
    ensures { result ≡ mask_l (map is_stop v) }
{
    (v.simd_eq(u8x8::splat(b'"'))
        | v.simd_eq(u8x8::splat(b'\\'))
        | v.simd_lt(u8x8::splat(32))).to_bitmask()
}

/// The same.
#[inline(always)]
fn stops_4(v: u8x4) -> u64
    ensures { result ≡ mask_l (map is_stop v) }
{
    (v.simd_eq(u8x4::splat(b'"'))
        | v.simd_eq(u8x4::splat(b'\\'))
        | v.simd_lt(u8x4::splat(32))).to_bitmask()
}
