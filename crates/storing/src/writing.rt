// What a store writes, once everything is decided (01, Store): the content, the entry, the map. Nothing here refuses.
// Each sector is lent on as a part of the image and written once. The data are laid from the last sector to the first, and each sector is marked
// in the map right after it is written: the two do not wait for each other.
ghost use Rattle.std.specs.Prelude.{◌≡◌, true, ◌≤◌, ◌<◌, length};
ghost use Rattle.d64spec.specs.Geometry.{on_disk};
ghost use Rattle.d64spec.specs.Store.{new_entry};
ghost use Rattle.geometry.specs.Layout.{geometry_of, address_of};
ghost use Rattle.entry.specs.Entry.{number_of_kind};
ghost use Rattle.storing.specs.Plans.{WriteReady, FileWritten};
ghost use Rattle.storing.specs.Writes.{chain_sector, StartsAt, SectorReady, SectorWritten};
ghost use Rattle.storing.specs.Writes.{ChainReady, ChainWritten, GrowReady, Grown, EntryReady, EntryLaid};

use crate::NewFile;
use crate::room::EntryPlace;
use entry::Kind;
use geometry::{Address, Layout};

// How the map marks a sector that is taken: not free.
const USED: bool = false;

// A sector of a chain: two link bytes, at most 254 bytes, and zeros.
fn fill_sector(sector: &mut [u8], link: [u8; 2], content: &[u8])
    requires { (length sector.old ≡ 256) × (length content.now ≤ 254) }
    ensures { sector.new ≡ chain_sector link content.now }
{
    let end = content.len() + 2;
    sector[..2].copy_from_slice(&link);
    sector[2..end].copy_from_slice(content);
    sector[end..].fill(0);
}

// Where the sector at a place starts in the image.
fn start_of(layout: Layout, at: Address) -> usize
    requires { on_disk (geometry_of layout) (address_of at) ≡ true }
    ensures { StartsAt (geometry_of layout) (address_of at) result }
{
    256 * geometry::number_of(at)
}

// Writes a sector of a chain at its place, and marks it used in the map.
fn write_sector(
    layout: Layout,
    img: &mut [u8],
    at: Address,
    link: [u8; 2],
    content: &[u8],
    map: &mut [[u8; 4]; 40],
)
    requires { SectorReady (geometry_of layout) img.old (address_of at) × (length content.now ≤ 254) }
    ensures { SectorWritten (geometry_of layout) img.old (address_of at) (chain_sector link content.now)
        map.old img.new map.new }
{
    let start = start_of(layout, at);
    fill_sector(&mut img[start..start + 256], link, content);
    bam::move_mark(map, at, USED);
}

// Lays the data along the sectors at these places, and marks them used in the map. The last one's link is 00 and the number of its last used byte.
fn write_chain(
    layout: Layout,
    img: &mut [u8],
    places: &[Address],
    content: &[u8],
    map: &mut [[u8; 4]; 40],
)
    requires { ChainReady (geometry_of layout) img.old places.now content.now }
    ensures { ChainWritten (geometry_of layout) img.old places.now content.now
        map.old img.new map.new }
{
    let last = places.len() - 1;
    let rest = &content[254 * last..];
    write_sector(
        layout,
        img,
        places[last],
        [0, (rest.len() + 1) as u8],
        rest,
        map,
    );
    for i in (0..last).rev() {
        let next = places[i + 1];
        write_sector(
            layout,
            img,
            places[i],
            [next.track, next.sector],
            &content[254 * i..254 * i + 254],
            map,
        );
    }
}

// Bytes 02 to 1F of the new entry: $80 + kind, first sector, name, nine zeros, count.
fn new_entry(name: &[u8], kind: Kind, first: Address, count: usize) -> [u8; 30]
    requires { (length name.now ≤ 16) × (count < 65536) }
    ensures { result ≡ new_entry name.now (number_of_kind kind) (address_of first) count }
{
    let mut entry = [0u8; 30];
    entry[0] = 0x80 + kind.number();
    entry[1] = first.track;
    entry[2] = first.sector;
    entry[3..19].copy_from_slice(&names::padded_name(name));
    entry[28..].copy_from_slice(&(count as u16).to_le_bytes());
    entry
}

// Adds 18/sector to the directory: it becomes 00 FF and zeros, and the last sector so far, 18/last, links to it.
fn grow_directory(layout: Layout, img: &mut [u8], last: u8, sector: u8)
    requires { GrowReady (geometry_of layout) img.old last sector }
    ensures { Grown (geometry_of layout) img.old last sector img.new }
{
    sectors::write_sector(
        img,
        357 + sector as usize,
        &sectors::empty_directory_sector(),
    );
    sectors::overwrite_in(img, 357 + last as usize, 0, &[18, sector]);
}

// Writes the entry at its place, after the directory has grown where it must.
fn write_entry(layout: Layout, img: &mut [u8], entry: &[u8; 30], place: EntryPlace, last: u8)
    requires { EntryReady (geometry_of layout) img.old entry.now place last }
    ensures { EntryLaid (geometry_of layout) img.old entry.now place last img.new }
{
    if place.grown {
        grow_directory(layout, img, last, place.sector);
    }
    sectors::overwrite_in(
        img,
        357 + place.sector as usize,
        32 * (place.index as usize) + 2,
        entry,
    );
}

// Writes a file: its data in the sectors at these places, its entry, and the map, which was loaded from the image.
pub(crate) fn write_file(
    layout: Layout,
    img: &mut [u8],
    file: &NewFile,
    places: &[Address],
    place: EntryPlace,
    last: u8,
    map: &[[u8; 4]; 40],
)
    requires { WriteReady (geometry_of layout) img.old file.now places.now place last map.now }
    ensures { FileWritten (geometry_of layout) img.old file.now img.new }
{
    let mut marks = *map;
    write_chain(layout, img, places, file.content, &mut marks);
    let entry = new_entry(file.name, file.kind, places[0], places.len());
    write_entry(layout, img, &entry, place, last);
    if place.grown {
        let at = Address {
            track: 18,
            sector: place.sector,
        };
        bam::move_mark(&mut marks, at, USED);
    }
    bam::write_map(layout, img, &marks);
}
