// Releases: three decimal numbers between dots, as in 0.8.0.
ghost use Rattle.std.specs.Prelude.{◌≡◌, ◌-◌, ◌<◌};
ghost use Rattle.record.specs.Release.{digit, all_digits, is_decimal, is_release, number, as_u32, release_parts, earlier};

use crate::cut::{after_byte, before_byte};
use crate::text::same;

#[derive(Clone, Copy, PartialEq, Eq, PartialOrd, Ord)]
pub struct Release {
    pub major: u32,
    pub minor: u32,
    pub patch: u32,
}

fn all_digits(part: &[u8]) -> bool
    ensures { result ≡ all_digits part.now }
{
    part.iter().all(|b| b.is_ascii_digit())
}

// Whether a part is written the one way there is. Otherwise 0.07.2 and 0.7.2 would name the same release.
#[tactic(auto, unfolding(crate::specs::Release::is_decimal, crate::specs::Base::bytes))]
fn is_decimal(part: &[u8]) -> bool
    ensures { result ≡ is_decimal part.now }
{
    !part.is_empty() && all_digits(part) && (same(part, b"0") || part[0] != b'0')
}

// Whether a text has the shape of a release. A part that is missing is empty, and a fourth would leave a dot in the third: neither is a decimal.
#[tactic(auto, using(crate::proofs::ReleaseLaws::release_is))]
pub fn is_release(value: &[u8]) -> bool
    ensures { result ≡ is_release value.now }
{
    if !is_decimal(before_byte(value, b'.')) {
        return false;
    }
    let rest = after_byte(value, b'.');
    is_decimal(before_byte(rest, b'.')) && is_decimal(after_byte(rest, b'.'))
}

// The number that digits write. It ends at 32 bits, so that no part, however long, overflows.
fn parse(part: &[u8]) -> Option<u32>
    ensures { result ≡ as_u32 (number 0 part.now) }
{
    let mut n: u64 = 0;
    for b in part {
        n = n * 10 + u64::from(b.saturating_sub(b'0'));
        if 0x1_0000_0000 <= n {
            return None;
        }
    }
    Some(n as u32)
}

// A release as three numbers, for comparing one with another.
pub fn release_parts(value: &[u8]) -> Option<Release>
    ensures { result ≡ release_parts value.now }
{
    if !is_release(value) {
        return None;
    }
    let Some(major) = parse(before_byte(value, b'.')) else {
        return None;
    };
    let rest = after_byte(value, b'.');
    let Some(minor) = parse(before_byte(rest, b'.')) else {
        return None;
    };
    let Some(patch) = parse(after_byte(rest, b'.')) else {
        return None;
    };
    Some(Release {
        major,
        minor,
        patch,
    })
}

// Whether the first release came before the second.
#[tactic(auto, unfolding(crate::specs::Release::earlier))]
pub fn earlier(a: Release, b: Release) -> bool
    ensures { result ≡ earlier a b }
{
    a < b
}
