//! Runs of bytes within a text, 16 bytes at a time.
ghost use Rattle.std.specs.Prelude.{◌≡◌, ◌+◌, ◌<◌, ◌≤◌, length, map, MatchOption};
ghost use Rattle.std.specs.List.{prefix_len};
ghost use Rattle.std.specs.Simd.Lanes.{mask_l};
ghost use Rattle.json.specs.Run.{is_plain, is_stop};
ghost use Rattle.aud_json.specs.Private.Unescaped.{IsCopied};

use std::simd::prelude::*;

/// Where a quote, a backslash or a control byte stands.
#[inline(always)]
fn stops(bytes: u8x16) -> u64
    ensures { result ≡ mask_l (map is_stop bytes) }
{
    (bytes.simd_eq(u8x16::splat(b'"'))
        | bytes.simd_eq(u8x16::splat(b'\\'))
        | bytes.simd_lt(u8x16::splat(0x20))).to_bitmask()
}

/// The same of 8 bytes.
#[inline(always)]
fn stops_8(bytes: u8x8) -> u64
    ensures { result ≡ mask_l (map is_stop bytes) }
{
    (bytes.simd_eq(u8x8::splat(b'"'))
        | bytes.simd_eq(u8x8::splat(b'\\'))
        | bytes.simd_lt(u8x8::splat(0x20))).to_bitmask()
}

/// How many of these bytes come before the first at which a text's plain bytes stop; none where they are all plain.
#[inline(always)]
fn plain_len(bytes: u8x16) -> Option<usize>
    ensures { MatchOption result (prefix_len is_plain bytes ≡ 16)
        (λ n. (n ≡ prefix_len is_plain bytes) × (n < 16)) }
{
    let found = stops(bytes);
    if found == 0 {
        return None;
    }
    Some(found.trailing_zeros() as usize)
}

/// Where the plain bytes stop: at a quote, a backslash or a control byte, or at the end.
#[inline(always)]
pub fn plain_end(bytes: &[u8]) -> usize
    ensures value { result ≡ prefix_len is_plain bytes.now }
    ensures bound { result ≤ length bytes.now }
{
    let mut i = 0;
    'whole: while bytes.len() - i >= 16 {
        if let Some(count) = plain_len(u8x16::from_slice(&bytes[i..])) {
            return i + count;
        }
        i += 16;
    }
    if bytes.len() - i >= 8 {
        let found = stops_8(u8x8::from_slice(&bytes[i..]));
        if found != 0 {
            return i + found.trailing_zeros() as usize;
        }
        i += 8;
    }
    'rest: while i < bytes.len() && bytes[i] != b'"' && bytes[i] != b'\\' && bytes[i] >= 0x20 {
        i += 1;
    }
    i
}

/// Copies the next 16 bytes from one place to another, and says how many come before the first that is not plain; none
/// where they are all plain.
#[inline(always)]
pub fn copy_plain(bytes: &[u8], from: usize, room: &mut [u8], to: usize) -> Option<usize>
    requires { (from + 16 ≤ length bytes.now) × (to + 16 ≤ length room.old) }
    ensures copied { MatchOption result (IsCopied bytes.now from room.old to 16 room.new)
        (λ n. IsCopied bytes.now from room.old to n room.new × (n < 16)) }
    ensures len { length room.new ≡ length room.old }
{
    let next = u8x16::from_slice(&bytes[from..]);
    next.copy_to_slice(&mut room[to..]);
    plain_len(next)
}
