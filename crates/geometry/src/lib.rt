// Tracks and sectors of a disk, in each of the three layouts (01, Tracks and sectors; 02, §8): how many there are, where the map has a track's entry,
// a track and a sector's number. Every function is total.
// The table's rule, the running sum, is proved once over all its rows: proofs/TableLaws.
#![tactic(auto)]

ghost use Rattle.std.specs.Prelude.{◌≡◌, ◌*◌};
ghost use Rattle.d64spec.specs.Geometry.{tracks, total, sectors_on};
ghost use Rattle.d64spec.specs.Layouts.{layout_numbered};
ghost use Rattle.geometry.specs.Layout.{address_of, geometry_of, extra_of, numbered_by, counts, firsts, IsCounts, entry_by, track_on, track_by, number_by};

// A layout: 35 tracks, or 40 with the map entries of the last five where SpeedDOS or Dolphin has them.
#[derive(Clone, Copy, Debug, PartialEq, Eq)]
pub enum Layout {
    Tracks35,
    SpeedDos,
    Dolphin,
}

// A number that names no layout.
#[derive(Clone, Copy, Debug, PartialEq, Eq)]
pub struct UnknownLayout;

// A sector by its track, from 1, and its place on the track, from 0.
#[derive(Clone, Copy, Debug, PartialEq, Eq)]
pub struct Address {
    pub track: u8,
    pub sector: u8,
}

// A track: its number, how many sectors it has, and the number of the first of them.
#[derive(Clone, Copy, Debug, PartialEq, Eq)]
pub struct Track {
    pub number: u8,
    pub sectors: u8,
    pub first: u16,
}

// Each track's sectors and the number of its first one, from track 1 on, where there are 40. The first 35 are alike in all layouts.
static TRACKS: [(u8, u16); 40] = [
    (21, 0),
    (21, 21),
    (21, 42),
    (21, 63),
    (21, 84),
    (21, 105),
    (21, 126),
    (21, 147),
    (21, 168),
    (21, 189),
    (21, 210),
    (21, 231),
    (21, 252),
    (21, 273),
    (21, 294),
    (21, 315),
    (21, 336),
    (19, 357),
    (19, 376),
    (19, 395),
    (19, 414),
    (19, 433),
    (19, 452),
    (19, 471),
    (18, 490),
    (18, 508),
    (18, 526),
    (18, 544),
    (18, 562),
    (18, 580),
    (17, 598),
    (17, 615),
    (17, 632),
    (17, 649),
    (17, 666),
    (17, 683),
    (17, 700),
    (17, 717),
    (17, 734),
    (17, 751),
];

// 0 for 35 tracks, 1 for SpeedDOS, 2 for Dolphin; no other number has a layout (02, §8).
impl TryFrom<u32> for Layout {
    type Error = UnknownLayout;

    ghost try_from_gives = { λ number r. numbered_by r ≡ layout_numbered number };

    #[tactic(auto, unfolding(d64spec::specs::Layouts::layout_numbered))]
    fn try_from(number: u32) -> Result<Self, UnknownLayout> {
        match number {
            0 => Ok(Layout::Tracks35),
            1 => Ok(Layout::SpeedDos),
            2 => Ok(Layout::Dolphin),
            _ => Err(UnknownLayout),
        }
    }
}

// The last track.
#[tactic(auto, using(crate::proofs::TableLaws::sizes), unfolding(d64spec::specs::Geometry::speed_dos, d64spec::specs::Geometry::dolphin))]
pub fn last_track(layout: Layout) -> u8
    ensures { result ≡ tracks (geometry_of layout) }
{
    match layout {
        Layout::Tracks35 => 35,
        Layout::SpeedDos => 40,
        Layout::Dolphin => 40,
    }
}

// The sectors of all tracks.
#[tactic(auto, using(crate::proofs::TableLaws::sizes), unfolding(d64spec::specs::Geometry::speed_dos, d64spec::specs::Geometry::dolphin))]
pub fn all_sectors(layout: Layout) -> usize
    ensures { result ≡ total (geometry_of layout) }
{
    match layout {
        Layout::Tracks35 => 683,
        Layout::SpeedDos => 768,
        Layout::Dolphin => 768,
    }
}

// The bytes of an image.
#[tactic(auto, using(crate::proofs::TableLaws::most_of))]
pub fn image_size(layout: Layout) -> usize
    ensures { result ≡ 256 * total (geometry_of layout) }
{
    256 * all_sectors(layout)
}

// Where the map entry of track 36 stands in 18/0, with those of the tracks behind it, if there is such a track (02, §8).
pub fn extra_entries(layout: Layout) -> Option<usize>
    ensures { result ≡ extra_of layout }
{
    match layout {
        Layout::Tracks35 => None,
        Layout::SpeedDos => Some(0xC0),
        Layout::Dolphin => Some(0xAC),
    }
}

// A track's row of the table: how many sectors, and the number of the first one. Two zeros where there is none.
#[tactic(auto, using(crate::proofs::LentTableLaws::rows))]
fn row_of(track: u8) -> (u8, u16)
    ensures sectors { result.0 ≡ entry_by counts track }
    ensures first { result.1 ≡ entry_by firsts track }
{
    let i = track as usize;
    if 1 <= i && i <= TRACKS.len() {
        TRACKS[i - 1]
    } else {
        (0, 0)
    }
}

// How many sectors a track has: 0 where the layout has no such track (01, Tracks and sectors; 02, §8).
#[tactic(auto, using(crate::proofs::LentTableLaws::counted))]
pub fn sectors_on(layout: Layout, track: u8) -> u8
    ensures { result ≡ sectors_on (geometry_of layout) track }
{
    if last_track(layout) < track {
        return 0;
    }
    row_of(track).0
}

// A track of the layout (01, Tracks and sectors). A track that it does not have has no sector: that is asked first, so that the loop along a chain sees
// its end by one test.
#[tactic(auto, using(crate::proofs::LentTableLaws::on_track))]
pub fn track_on(layout: Layout, number: u8) -> Track
    ensures { result ≡ track_on (geometry_of layout) number }
{
    // two tests and not one with `||`: with one, the loop along a chain was 6 % slower with 144 files
    if number < 1 {
        return Track {
            number,
            sectors: 0,
            first: 0,
        };
    }
    if last_track(layout) < number {
        return Track {
            number,
            sectors: 0,
            first: 0,
        };
    }
    let (sectors, first) = TRACKS[number as usize - 1];
    Track {
        number,
        sectors,
        first,
    }
}

// A sector's number, which is the same in every layout that has the sector; off the tracks its place on the track alone (01, Tracks and sectors).
#[tactic(auto, unfolding(crate::specs::Layout::number_by))]
pub fn number_of(at: Address) -> usize
    ensures { result ≡ number_by firsts (address_of at) }
{
    row_of(at.track).1 as usize + at.sector as usize
}

// What follows is for callers with tables of their own: the library's own loops ask the layout (sectors_on, track_on, number_of).

// The number of each track's first sector, from track 1 on: all sectors of the lower tracks. The first 35 are alike in all layouts.
pub const FIRST: [u16; 40] = [
    0, 21, 42, 63, 84, 105, 126, 147, 168, 189, 210, 231, 252, 273, 294, 315, 336, 357, 376, 395,
    414, 433, 452, 471, 490, 508, 526, 544, 562, 580, 598, 615, 632, 649, 666, 683, 700, 717, 734,
    751,
];

// How many sectors each track has, from track 1 on, to be lent to loops; 0 for tracks that the layout does not have.
pub fn counts_of(layout: Layout) -> [u8; 40]
    ensures { IsCounts (geometry_of layout) result }
{
    let mut counts = [0u8; 40];
    for i in 0..40 {
        counts[i] = sectors_on(layout, i as u8 + 1);
    }
    counts
}

// A track's entry of a table of counts, from track 1 on: 0 where there is none. For loops: the table is lent.
#[tactic(auto, using(crate::proofs::LentTableLaws::entries))]
pub fn count_by(counts: &[u8], track: u8) -> u8
    ensures { result ≡ entry_by counts.now track }
{
    let i = track as usize;
    if 1 <= i && i <= counts.len() {
        counts[i - 1]
    } else {
        0
    }
}

// A track's entry of a table of first numbers, from track 1 on: 0 where there is none.
#[tactic(auto, using(crate::proofs::LentTableLaws::entries))]
fn first_by(firsts: &[u16], track: u8) -> u16
    ensures { result ≡ entry_by firsts.now track }
{
    let i = track as usize;
    if 1 <= i && i <= firsts.len() {
        firsts[i - 1]
    } else {
        0
    }
}

// A track of a disk whose tracks, from track 1 on, have these counts of sectors and start at these numbers. A track that the tables do not have has
// no sector.
#[tactic(auto, using(crate::proofs::LentTableLaws::tracks_by))]
pub fn track_by(counts: &[u8; 40], firsts: &[u16; 40], number: u8) -> Track
    ensures { result ≡ track_by counts.now firsts.now number }
{
    if number < 1 || 40 < number {
        return Track {
            number,
            sectors: 0,
            first: 0,
        };
    }
    let i = number as usize - 1;
    Track {
        number,
        sectors: counts[i],
        first: firsts[i],
    }
}

// A sector's number on a disk whose tracks, from track 1 on, start at these numbers; off these tracks its place on the track alone.
#[tactic(auto, unfolding(crate::specs::Layout::number_by))]
pub fn number_by(firsts: &[u16; 40], at: Address) -> usize
    ensures { result ≡ number_by firsts.now (address_of at) }
{
    first_by(firsts, at.track) as usize + at.sector as usize
}
