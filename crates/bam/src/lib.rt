// The block availability map (document 01's map, 18/0): an entry of four bytes for each track, a count of free sectors and three bitmap bytes, which are
// one number. In order: one entry; the map by value, changed mark by mark; loaded from its sector and stored back; the same in an image.
#![tactic(auto)]

ghost use Rattle.std.specs.Prelude.{◌≡◌, ◌+◌, ◌-◌, ◌≤◌, ◌<◌, length};
ghost use Rattle.d64spec.specs.Lists.{splice};
ghost use Rattle.d64spec.specs.Geometry.{sector_number, map_address};
ghost use Rattle.d64spec.specs.Image.{disk};
ghost use Rattle.d64spec.specs.Reply.{writable};
ghost use Rattle.geometry.specs.Layout.{geometry_of, address_of};
ghost use Rattle.bam.specs.MapEntry.{bitmap_of, own_bits, own_bits_by, free_in, free_on, entry_from, moved_entry};
ghost use Rattle.bam.specs.Bam.{moved_mark};
ghost use Rattle.bam.specs.MapSector.{RunFits, with_run, stored_run, map_entries, stored_entries, allows_writing};
ghost use Rattle.bam.specs.ImageMaps.{MapWritten};

use geometry::{Address, Layout};

// The three bitmap bytes of an entry as one number: bit s for sector s.
#[tactic(auto, unfolding(crate::specs::MapEntry::bitmap_of))]
pub fn bitmap_of(entry: [u8; 4]) -> u32
    ensures { result ≡ bitmap_of entry }
{
    u32::from_le_bytes([entry[1], entry[2], entry[3], 0])
}

// How many bits of an entry are the own sectors' of a track with so many sectors: as many as these, and at most 24.
#[tactic(auto, unfolding(crate::specs::MapEntry::own_bits))]
pub fn own_bits(sectors: u8) -> u8
    ensures { result ≡ own_bits sectors }
{
    sectors.min(24)
}

// How many sectors of a track with so many its entry marks free: the ones of the three bitmap bytes, counted at once, those past the track's last
// sector masked off (02, §4).
pub fn count_free(entry: [u8; 4], sectors: u8) -> u32
    ensures { result ≡ free_in entry sectors }
{
    (bitmap_of(entry) % (1 << own_bits(sectors))).count_ones()
}

// The next two are for callers with a table of their own, which they lend: the library's own loops ask the layout for a track's number of sectors.

// How many bits of a track's entry are its own sectors', by a table of how many sectors each track has, from track 1 on; a track that is not in the
// table has none.
pub fn own_bits_by(track: u8, counts: &[u8; 40]) -> u8
    ensures { result ≡ own_bits_by counts.now track }
{
    own_bits(geometry::count_by(counts, track))
}

// How many sectors of a track its entry marks free, by such a table.
pub fn count_free_by(entry: [u8; 4], track: u8, counts: &[u8; 40]) -> u32
    ensures { result ≡ free_on counts.now entry track }
{
    count_free(entry, geometry::count_by(counts, track))
}

// The entry with this count and this bitmap: the bitmap's lowest three bytes.
#[tactic(auto, unfolding(crate::specs::MapEntry::entry_from))]
fn entry_of(count: u8, bits: u32) -> [u8; 4]
    ensures { result ≡ entry_from count bits }
{
    let [low, middle, high, _] = bits.to_le_bytes();
    [count, low, middle, high]
}

// The entry with a sector marked free and counted in, or else marked used and counted out, where it was the other way before: the bitmap is one
// number, of which bit s is sector s, and no other bit of it changes. A sector from 24 on has no mark and changes nothing.
fn moved_entry(entry: [u8; 4], sector: u8, free: bool) -> [u8; 4]
    ensures { result ≡ moved_entry entry sector free }
{
    if sector >= 24 {
        return entry;
    }
    let bit: u32 = 1 << sector;
    let bits = bitmap_of(entry);
    if free {
        entry_of(entry[0].wrapping_add(1), bits + bit)
    } else {
        entry_of(entry[0].wrapping_sub(1), bits.wrapping_sub(bit))
    }
}

// Marks the sector at a place free and counts it in, or else marks it used and counts it out. Where the map has no such mark, nothing changes.
pub fn move_mark(map: &mut [[u8; 4]; 40], at: Address, free: bool)
    ensures { map.new ≡ moved_mark free (address_of at) map.old }
{
    if at.track < 1 || 40 < at.track {
        return;
    }
    let i = at.track as usize - 1;
    map[i] = moved_entry(map[i], at.sector, free);
}

// Loads the entries of the tracks first + 1 to last, which stand behind one another from `at` on.
fn load_run(map: &mut [[u8; 4]; 40], sector: &[u8], first: usize, last: usize, at: usize)
    requires { RunFits (length sector.now) first last at }
    ensures { map.new ≡ with_run sector.now first (last - first) at map.old }
{
    for i in first..last {
        let a = at + 4 * (i - first);
        map[i] = [sector[a], sector[a + 1], sector[a + 2], sector[a + 3]];
    }
}

// The map of a whole map sector.
fn load_whole(layout: Layout, sector: &[u8]) -> [[u8; 4]; 40]
    requires { length sector.now ≡ 256 }
    ensures { result ≡ map_entries (geometry_of layout) sector.now }
{
    let mut map = [[0u8; 4]; 40];
    load_run(&mut map, sector, 0, 35, 4);
    if let Some(extra) = geometry::extra_entries(layout) {
        load_run(&mut map, sector, 35, 40, extra);
    }
    map
}

// The map of a map sector: an entry for each track of the layout, and zeros for those that it does not have. Bytes past the end of a slice that is
// too short read as 0.
pub fn load_map(layout: Layout, sector: &[u8]) -> [[u8; 4]; 40]
    ensures { result ≡ map_entries (geometry_of layout) sector.now }
{
    if sector.len() == 256 {
        return load_whole(layout, sector);
    }
    // a map sector is whole, so that no test is made for each of its entries
    let mut whole = [0u8; 256];
    parts::overwrite(&mut whole, 0, parts::clipped(sector, 0, 256));
    load_whole(layout, &whole)
}

// Puts an entry's four bytes at `at`.
fn store_entry(entry: [u8; 4], sector: &mut [u8], at: usize)
    requires { at + 4 ≤ length sector.old }
    ensures { sector.new ≡ splice sector.old at entry }
{
    sector[at..at + 4].copy_from_slice(&entry);
}

// Puts the entries of the tracks first + 1 to last behind one another, from `at` on.
fn store_run(map: &[[u8; 4]; 40], sector: &mut [u8], first: usize, last: usize, at: usize)
    requires { RunFits (length sector.old) first last at }
    ensures { sector.new ≡ stored_run map.now first (last - first) at sector.old }
{
    for i in first..last {
        store_entry(map[i], sector, at + 4 * (i - first));
    }
}

// Puts the map into a map sector, each entry of the layout at its place; no other byte changes. A slice that is not 256 bytes long is left as it is.
pub fn store_map(layout: Layout, map: &[[u8; 4]; 40], sector: &mut [u8])
    ensures { sector.new ≡ stored_entries (geometry_of layout) map.now sector.old }
{
    if sector.len() != 256 {
        return;
    }
    store_run(map, sector, 0, 35, 4);
    if let Some(extra) = geometry::extra_entries(layout) {
        store_run(map, sector, 35, 40, extra);
    }
}

// Whether the DOS version in a map sector, its byte 2, allows writing: $41 or $00. A byte past the end of a slice that is too short reads as 0.
#[tactic(auto, unfolding(crate::specs::MapSector::allows_writing))]
fn allows_writing(sector: &[u8]) -> bool
    ensures { result ≡ allows_writing sector.now }
{
    let version = parts::byte_at(sector, 2);
    version == 0x41 || version == 0
}

// The number of 18/0, in every layout.
const MAP_SECTOR: usize = 357;

// The map of an image, by value.
pub fn map_of(layout: Layout, img: &[u8]) -> [[u8; 4]; 40]
    ensures { result ≡ map_entries (geometry_of layout) (disk img.now (sector_number (geometry_of layout) map_address)) }
{
    load_map(layout, sectors::sector(img, MAP_SECTOR))
}

// Whether the DOS version of an image allows writing: $41 or $00.
pub fn may_write(layout: Layout, img: &[u8]) -> bool
    ensures { result ≡ writable (geometry_of layout) (disk img.now) }
{
    allows_writing(sectors::sector(img, MAP_SECTOR))
}

// Puts the map into 18/0; no byte outside the layout's entries changes. An image that does not have 18/0 whole is left as it is.
pub fn write_map(layout: Layout, img: &mut [u8], map: &[[u8; 4]; 40])
    ensures { MapWritten (geometry_of layout) img.old map.now img.new }
{
    if img.len() < 91648 {
        return;
    }
    store_map(layout, map, &mut img[91392..91648]);
}
