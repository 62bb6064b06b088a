// Bytes of a slice, read and overwritten for any slice and any numbers: what the crates above share.
// Nothing wraps and nothing is out of range: a byte past the end reads as 0, a part ends where the slice ends.
#![tactic(auto)]

ghost use Rattle.std.specs.Prelude.{◌≡◌, ◌+◌, ◌<◌, ◌≤◌, length, take, drop, MatchOption};
ghost use Rattle.d64spec.specs.Lists.{byte};
ghost use Rattle.parts.specs.Numbers.{IsFour, IsEight};
ghost use Rattle.parts.specs.Overwrites.{overwritten};

// Byte `at`, or 0 past the end.
pub fn byte_at(bytes: &[u8], at: usize) -> u8
    ensures { result ≡ byte bytes.now at }
{
    bytes.get(at).copied().unwrap_or(0)
}

// The N bytes from index `at` on, where there are as many.
fn array_at<const N: usize>(bytes: &[u8], at: usize) -> Option<&[u8; N]>
    ensures { MatchOption result (length bytes.now < at + N) (λ found. (at + N ≤ length bytes.now) × (found.now ≡ take N (drop at bytes.now))) }
{
    bytes.get(at..)?.first_chunk()
}

// The number of the four bytes from index `at` on, low byte first, or 0 where there are not four: compiles to one load.
pub fn four_at(bytes: &[u8], at: usize) -> u64
    ensures { IsFour bytes.now at result }
{
    let Some(four) = array_at::<4>(bytes, at) else {
        return 0;
    };
    u64::from(u32::from_le_bytes(*four))
}

// The number of the eight bytes from index `at` on, low byte first, or 0 where there are not eight: compiles to one load.
pub fn eight_at(bytes: &[u8], at: usize) -> u64
    ensures { IsEight bytes.now at result }
{
    let Some(eight) = array_at::<8>(bytes, at) else {
        return 0;
    };
    u64::from_le_bytes(*eight)
}

// At most `count` bytes from index `start` on: fewer where the slice ends before.
pub fn clipped(bytes: &[u8], start: usize, count: usize) -> &[u8]
    ensures { result.now ≡ take count (drop start bytes.now) }
{
    let rest = bytes.get(start..).unwrap_or(&[]);
    &rest[..count.min(rest.len())]
}

// Writes the content over as many bytes from index `at` on. Where the slice ends before, nothing is written.
pub fn overwrite(target: &mut [u8], at: usize, content: &[u8])
    ensures { target.new ≡ overwritten target.old at content.now }
{
    let size = content.len();
    if target.len() < size || target.len() - size < at {
        return;
    }
    // no get_mut: what comes back of its loan has names of the prover's own in the goal
    target[at..at + size].copy_from_slice(content);
}
