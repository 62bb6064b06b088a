// Where a store puts a file, by the map's marks (01, Store): the first free sectors in the allocation order, document 01's house order; and the
// lowest free sector of track 18, for the directory.
#![tactic(auto)]

ghost use Rattle.std.specs.Prelude.{◌≡◌, ◌+◌, ◌<◌};
ghost use Rattle.d64spec.specs.Geometry.{tracks};
ghost use Rattle.geometry.specs.Layout.{geometry_of};
ghost use Rattle.placement.specs.Placements.{OrderTrack, TrackPlaced, Placed, directory_place};

use geometry::{Address, Layout};

// The track at an index of the allocation order: 17 down to 1, then 19 up to the last.
fn track_at(layout: Layout, i: u8) -> u8
    requires { i + 1 < tracks (geometry_of layout) }
    ensures { OrderTrack (geometry_of layout) i result }
{
    if i < 17 { 17 - i } else { i + 2 }
}

// Puts the sectors of a track that its entry marks free, upward, at the start of `at`, or as many as have room there; returns how many they are.
// How many of them are free is counted at once (02, §4); the bitmap is one number, halved from sector to sector until all are found.
fn take_track(layout: Layout, entry: [u8; 4], track: u8, at: &mut [Address]) -> usize
    ensures { TrackPlaced (geometry_of layout) entry track at.old result at.new }
{
    let own = geometry::sectors_on(layout, track);
    let free = bam::count_free(entry, own) as usize;
    let end = free.min(at.len());
    let mut bits = bam::bitmap_of(entry);
    let mut n = 0;
    let mut sector = 0;
    // no range of sectors: the last free one ends it, and no sector behind that is asked
    while n < end {
        if bits % 2 == 1 {
            at[n] = Address { track, sector };
            n += 1;
        }
        bits /= 2;
        sector += 1;
    }
    n
}

// Puts the first `wanted` sectors in the allocation order that the map marks free at the start of `at`, or as many of them as there are and as have
// room there; the rest of `at` stays. Returns how many they are.
pub fn place_sectors(
    layout: Layout,
    map: &[[u8; 4]; 40],
    wanted: usize,
    at: &mut [Address],
) -> usize
    ensures { Placed (geometry_of layout) map.now wanted at.old result at.new }
{
    let want = wanted.min(at.len());
    let mut have = 0;
    for i in 0..geometry::last_track(layout) - 1 {
        if have == want {
            return have;
        }
        let track = track_at(layout, i);
        have += take_track(layout, map[track as usize - 1], track, &mut at[have..want]);
    }
    have
}

// The lowest sector of track 18 that the map marks free, as an address.
pub fn place_directory(layout: Layout, map: &[[u8; 4]; 40]) -> Option<Address>
    ensures { result ≡ directory_place (geometry_of layout) map.now }
{
    let mut at = [Address {
        track: 18,
        sector: 0,
    }];
    if take_track(layout, map[17], 18, &mut at) == 1 {
        return Some(at[0]);
    }
    None
}
