//! Where a channel has samples: at the multiples of its sampling, negative ones too; and sides cut into pieces.
//!
//! File Layout, "Predefined Attribute Types" (chlist: xSampling, ySampling); Technical Introduction, "Image
//! channels and sampling rates".

ghost use Rattle.std.specs.Prelude.{◌≡◌, ◌≤◌, ◌<◌, ◌^◌, pos, neg_ℤ, ◌≤ℤ◌, ◌-ℤ◌};
ghost use Rattle.exr_base.specs.Sampling.{IsFirstSample, sample_count_of, count_before, span_of, pieces};

/// The least multiple of `sampling` that is at least `from`.
pub fn first_sample(sampling: u32, from: i32) -> i64
    requires { 1 ≤ sampling }
    ensures { IsFirstSample sampling from result }
{
    let past = i64::from(from).rem_euclid(i64::from(sampling));
    if past == 0 {
        i64::from(from)
    } else {
        i64::from(from) + (i64::from(sampling) - past)
    }
}

/// The number of multiples of `sampling` from `from` to `to`, both included. It is called for each row, so a sampling of 1
/// takes no division.
pub fn sample_count(sampling: u32, from: i32, to: i32) -> u32
    requires sampling { 1 ≤ sampling }
    requires from_low { neg_ℤ (pos (2 ^ 30)) ≤ℤ from }
    requires from_high { from ≤ℤ pos (2 ^ 30) }
    requires to_low { (from -ℤ pos 1) ≤ℤ to }
    requires to_high { to ≤ℤ pos (2 ^ 30) }
    ensures { result ≡ sample_count_of sampling from to }
{
    if sampling == 1 {
        return span(from, to);
    }
    let before = (i64::from(from) - 1).div_euclid(i64::from(sampling));
    let last = i64::from(to).div_euclid(i64::from(sampling));
    (last - before) as u32
}

/// The number of multiples of `sampling` from `from` on and before `to`.
pub fn count_before(sampling: u32, from: i32, to: i32) -> u32
    requires sampling { 1 ≤ sampling }
    requires low { neg_ℤ (pos (2 ^ 30)) ≤ℤ from }
    requires ordered { from ≤ℤ to }
    requires high { to ≤ℤ pos (2 ^ 30) }
    ensures { result ≡ count_before sampling from to }
{
    sample_count(sampling, from, to - 1)
}

/// The places from `from` to `to`, both included.
pub fn span(from: i32, to: i32) -> u32
    requires low { neg_ℤ (pos (2 ^ 30)) ≤ℤ from }
    requires ends { (from -ℤ pos 1) ≤ℤ to }
    requires high { to ≤ℤ pos (2 ^ 30) }
    ensures { result ≡ span_of from to }
{
    (i64::from(to) - i64::from(from) + 1) as u32
}

/// The number of pieces of a size that cover a length; the last one may reach past the end.
pub fn pieces(size: u32, length: u32) -> u32
    requires some { 1 ≤ size }
    requires small { size ≤ 2 ^ 30 }
    requires short { length ≤ 2 ^ 30 }
    ensures exact { result ≡ pieces size length }
    ensures few { result ≤ length }
{
    (length + size - 1) / size
}
