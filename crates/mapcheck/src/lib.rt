// Step 4 of the check: the block availability map (document 01's map) against the owned sectors, track by track (01, Order of the check, 4).
// A track's owned sectors are one number, bit s for sector s, which was filled while the chains were walked (02, §4). It is compared at once with as
// many bits of the entry's three bitmap bytes as the track has sectors: the bits past its last sector are ignored (02, §5). The lowest bit that
// differs is the sector that a refusal names (02, §3).
#![tactic(auto)]

ghost use Rattle.std.specs.Prelude.{◌≡◌, ℕ, ◌<◌, [], get_or, unwrap_or};
ghost use Rattle.d64spec.specs.Lists.{byte};
ghost use Rattle.answers.specs.Faults.{verdict_of};
ghost use Rattle.geometry.specs.Layout.{geometry_of};
ghost use Rattle.bam.specs.MapEntry.{own_bits};
ghost use Rattle.mapcheck.specs.MapChecks.{lowest_difference, TrackSectors, track_verdict, map_verdict, entries_verdict, EntriesPassed};

use answers::Fault;
use geometry::Layout;

// The lowest bit in which two numbers differ, where they do.
fn lowest_difference(a: u32, b: u32) -> Option<u8>
    ensures { unwrap_or result 255 ≡ lowest_difference a b }
{
    if a == b {
        return None;
    }
    Some((a ^ b).trailing_zeros() as u8)
}

// Sectors of a track as numbers, bit s for sector s: those that its entry marks free, and those that have no owner.
#[derive(Clone, Copy)]
struct Sectors {
    marked: u32,
    free: u32,
}

// Both of them, with as many bits as the track has sectors: `own` of them.
fn sectors_of(entry: [u8; 4], used: u32, own: u8) -> Sectors
    ensures { TrackSectors entry used (own_bits own) result }
{
    let all: u32 = 1 << bam::own_bits(own);
    Sectors {
        marked: bam::bitmap_of(entry) % all,
        free: all - 1 - used % all,
    }
}

// A track's entry: fine where it marks free exactly the sectors that have no owner, and counts its marks. Else it is refused, at the lowest sector
// whose bit is wrong, or at 255 where only the count is.
fn check_track(layout: Layout, entry: [u8; 4], used: u32, track: u8) -> Result<(), Fault>
    ensures { verdict_of result ≡ track_verdict (geometry_of layout) entry used track }
{
    let own = geometry::sectors_on(layout, track);
    let sectors = sectors_of(entry, used, own);
    if sectors.marked == sectors.free && entry[0] as u32 == bam::count_free(entry, own) {
        return Ok(());
    }
    let sector = lowest_difference(sectors.marked, sectors.free).unwrap_or(255);
    Err(Fault::WrongMapEntry { track, sector })
}

// The entries of track 1 to the last, one after the other: the first that is wrong is refused.
fn check_tracks(layout: Layout, map: &[[u8; 4]; 40], used: &[u32; 40]) -> Result<(), Fault>
    ensures { verdict_of result ≡ entries_verdict (geometry_of layout) map.now used.now }
{
    let last = geometry::last_track(layout);
    for track in 1..=last {
        let i = track as usize - 1;
        check_track(layout, map[i], used[i], track)?;
    }
    Ok(())
}

// Whether no entry is wrong, asked of all tracks at once: what differs is gathered in one number, with no branch from track to track, so that the
// compiler takes several tracks in one step.
fn none_wrong(layout: Layout, map: &[[u8; 4]; 40], used: &[u32; 40]) -> bool
    requires { (i : ℕ) → i < 40 → byte (get_or map.now i []) 0 < 256 }
    ensures { EntriesPassed (geometry_of layout) map.now used.now result }
{
    let last = geometry::last_track(layout) as usize;
    let mut wrong: u32 = 0;
    for i in 0..last {
        let track = (i + 1) as u8;
        let entry = map[i];
        // asked twice: with one name for both the compiler takes one track at a time, and an empty disk's check took a third longer
        let sectors = sectors_of(entry, used[i], geometry::sectors_on(layout, track));
        let count = bam::count_free(entry, geometry::sectors_on(layout, track));
        wrong |= (sectors.marked ^ sectors.free) | (entry[0] as u32 ^ count);
    }
    wrong == 0
}

// The map of a map sector against the owned sectors of each track, from track 1 on. Only where an entry is wrong are they looked at one by one.
pub fn check_map(layout: Layout, sector: &[u8], used: &[u32; 40]) -> Result<(), Fault>
    ensures { verdict_of result ≡ map_verdict (geometry_of layout) sector.now used.now }
{
    let map = bam::load_map(layout, sector);
    if none_wrong(layout, &map, used) {
        return Ok(());
    }
    check_tracks(layout, &map, used)
}
