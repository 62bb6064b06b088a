// The first slot whose name field an earlier slot has too, in one pass (01, Order of the check, 3: name used by an earlier slot).
// A name field is held as two 64-bit numbers. Where there are more slots than one sector has, a table of hashes is asked before names are compared:
// equal names have equal hashes, so that where the hash is new the name is new.
ghost use Rattle.std.specs.Prelude.{◌≡◌, ◌≤◌, ◌<◌, length};
ghost use Rattle.d64spec.specs.Lists.{All};
ghost use Rattle.directory.specs.Directories.{first_repeated, found};
ghost use Rattle.directory.specs.NameWords.{hash_of, holds};

// A hash of a name's two words: one product, by an odd number near 2^28 over the golden ratio.
#[tactic(auto, unfolding(crate::specs::NameWords::hash_of))]
fn hash(x: u64, y: u64) -> usize
    ensures { result ≡ hash_of x y }
{
    let sum = x % 4294967296 + 3 * (x / 4294967296) + 5 * (y % 4294967296) + 7 * (y / 4294967296);
    (sum * 165902235 / 16777216 % 4096) as usize
}

// Whether a name is one of these.
fn among(names: &[(u64, u64)], name: (u64, u64)) -> bool
    ensures { result ≡ holds names.now name.0 name.1 }
{
    names.iter().any(|other| *other == name)
}

// The first of the slots 0 to end - 1 that repeats the name field of an earlier one. N names are held, and their hashes in a table of H places: at a
// place that no name passed has marked, the name is new.
fn first_of<const N: usize, const H: usize>(
    track18: &[u8],
    sectors: &[u8; 18],
    end: usize,
) -> Option<usize>
    requires { (length track18.now ≡ 4864) × (end ≤ N) × (N ≤ 144) × (0 < H) × All (λ s. s < 19) sectors.now }
    ensures { result ≡ found end (first_repeated track18.now sectors.now 0 end) }
{
    let mut seen = [false; H];
    // no heap: the array has room for all names, and n says how many there are
    let mut names = [(0u64, 0u64); N];
    let mut n = 0;
    for k in 0..end {
        let slot = crate::slot_at(track18, sectors, k);
        if slot[0] != 0 {
            let name = (parts::eight_at(slot, 3), parts::eight_at(slot, 11));
            let h = hash(name.0, name.1) % H;
            if seen[h] && among(&names[..n], name) {
                return Some(k);
            }
            seen[h] = true;
            names[n] = name;
            n += 1;
        }
    }
    None
}

// The same: in one directory sector, as on most disks, each name is compared with all before it, and no large table is cleared.
pub(crate) fn first_repeated(track18: &[u8], sectors: &[u8; 18], end: usize) -> Option<usize>
    requires { (length track18.now ≡ 4864) × (end ≤ 144) × All (λ s. s < 19) sectors.now }
    ensures { result ≡ found end (first_repeated track18.now sectors.now 0 end) }
{
    if end <= 8 {
        return first_of::<8, 1>(track18, sectors, end);
    }
    first_of::<144, 4096>(track18, sectors, end)
}
