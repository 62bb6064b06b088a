// Store (01, What the calls do): every refusal is decided while the image is only read; what is written then cannot fail.
#![tactic(auto)]

mod room;
mod writing;

ghost use Rattle.std.specs.Prelude.{◌≡◌, true, [], length, eqb};
ghost use Rattle.geometry.specs.Layout.{geometry_of};
ghost use Rattle.d64spec.specs.Image.{disk};
ghost use Rattle.d64spec.specs.Directory.{files};
ghost use Rattle.d64spec.specs.Reply.{valid_name_argument, files_named};
ghost use Rattle.d64spec.specs.Call.{store, perform};
ghost use Rattle.answers.specs.Faults.{reply_of};
ghost use Rattle.finding.specs.FileSlots.{CheckedSlots};
ghost use Rattle.storing.specs.Decisions.{store_of, StoreChecked, StoreNew, StorePlaced};

use answers::{Done, Fault};
use diskcheck::Checked;
use entry::Kind;
use geometry::{Address, Layout};
use room::EntryPlace;

// A file to be stored.
#[derive(Drop)]
struct NewFile<'a> {
    name: &'a [u8],
    kind: Kind,
    content: &'a [u8],
}

// Whether no file of a checked image has this name; its slots are 0 to end - 1.
fn is_new(layout: Layout, img: &[u8], name: &[u8], sectors: &[u8; 18], end: usize) -> bool
    requires { CheckedSlots (geometry_of layout) img.now sectors.now end × (valid_name_argument name.now ≡ true) }
    ensures { result ≡ eqb (length (files_named name.now (files (geometry_of layout) (disk img.now)))) 0 }
{
    finding::find_named(sectors::track18(img), sectors, name, end).is_none()
}

// Stores the file with its entry at this place of the directory, whose last sector is 18/last; refused with 15 where its sectors are not there.
fn store_placed(
    layout: Layout,
    img: &mut [u8],
    file: &NewFile,
    place: EntryPlace,
    last: u8,
    map: &[[u8; 4]; 40],
) -> Result<Done, Fault>
    requires { StorePlaced (geometry_of layout) img.old file.now place last map.now }
    ensures { reply_of result img.new [] ≡ perform (geometry_of layout) img.old (store_of file.now) }
{
    // no disk has room for more, and the number of sectors is then not asked for
    if 190246 < file.content.len() {
        return Err(Fault::DiskFull);
    }
    let needed = room::sectors_needed(file.content.len());
    let mut at = [Address {
        track: 0,
        sector: 0,
    }; 749];
    if placement::place_sectors(layout, map, needed, &mut at) < needed {
        return Err(Fault::DiskFull);
    }
    writing::write_file(layout, img, file, &at[..needed], place, last, map);
    Ok(Done {
        length: file.content.len() as u32,
        sectors: needed as u16,
    })
}

// The same for a name that is new on a checked image; refused with 14 where there is no room for the entry.
fn store_new(
    layout: Layout,
    img: &mut [u8],
    file: &NewFile,
    checked: &Checked,
) -> Result<Done, Fault>
    requires { StoreNew (geometry_of layout) img.old file.now checked.now.sectors checked.now.count }
    ensures { reply_of result img.new [] ≡ perform (geometry_of layout) img.old (store_of file.now) }
{
    let map = bam::map_of(layout, img);
    let Some(place) = room::room_in(layout, img, checked, &map) else {
        return Err(Fault::DirectoryFull);
    };
    let last = checked.sectors[checked.count - 1];
    store_placed(layout, img, file, place, last, &map)
}

// The same on a checked image; refused with 11 where the DOS version forbids writing, and with 12 where the name is there.
fn store_checked(
    layout: Layout,
    img: &mut [u8],
    file: &NewFile,
    checked: &Checked,
) -> Result<Done, Fault>
    requires { StoreChecked (geometry_of layout) img.old file.now checked.now.sectors checked.now.count }
    ensures { reply_of result img.new [] ≡ perform (geometry_of layout) img.old (store_of file.now) }
{
    if !bam::may_write(layout, img) {
        return Err(Fault::WriteForbidden);
    }
    if !is_new(layout, img, file.name, &checked.sectors, 8 * checked.count) {
        return Err(Fault::NameExists);
    }
    store_new(layout, img, file, checked)
}

// Stores a new file: its data in the first free sectors in the allocation order, its entry in the first empty slot or in a new directory sector,
// and the map; reports its length and its number of sectors. Refused with 1, 9, 10, 2 to 8, 11, 12, 14 or 15, in this order; a refusal leaves
// the image as it was.
pub fn store_file(
    layout: Layout,
    img: &mut [u8],
    name: &[u8],
    kind: u32,
    content: &[u8],
) -> Result<Done, Fault>
    ensures { reply_of result img.new [] ≡ perform (geometry_of layout) img.old (store name.now kind content.now) }
{
    // size and name are asked alike in four calls, and what comes next differs: a store asks the kind, a format runs no check
    if img.len() != geometry::image_size(layout) {
        return Err(Fault::WrongSize);
    }
    if !names::valid_name_argument(name) {
        return Err(Fault::BadNameArgument);
    }
    let Ok(kind) = Kind::try_from(kind) else {
        return Err(Fault::BadKindArgument);
    };
    let checked = diskcheck::check_image(layout, img)?;
    let file = NewFile {
        name,
        kind,
        content,
    };
    store_checked(layout, img, &file, &checked)
}
