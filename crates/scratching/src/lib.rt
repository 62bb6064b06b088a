// Scratch (01, What the calls do): the file's sectors and its slot zeroed, and its sectors free in the map. Every refusal is decided while the
// image is only read; what is written then cannot fail.
#![tactic(auto)]

ghost use Rattle.std.specs.Prelude.{◌≡◌, true, Ok, [], ◌+◌, ◌*◌, ◌<◌};
ghost use Rattle.d64spec.specs.Lists.{zeros};
ghost use Rattle.d64spec.specs.Answers.{done};
ghost use Rattle.d64spec.specs.Reply.{reply, valid_name_argument};
ghost use Rattle.d64spec.specs.Scratch.{scratch_change};
ghost use Rattle.d64spec.specs.Call.{scratch, perform};
ghost use Rattle.geometry.specs.Layout.{geometry_of, address_of};
ghost use Rattle.sectors.specs.Sectors.{Inside, overwritten_in};
ghost use Rattle.answers.specs.Faults.{reply_of};
ghost use Rattle.finding.specs.FileSlots.{CheckedSlots};
ghost use Rattle.bam.specs.ImageMaps.{MapWritten};
ghost use Rattle.scratching.specs.Scratches.{SectorCleared, ChainOwned, ChainCleared};
ghost use Rattle.scratching.specs.Scratches.{start_of, file_on, FileThere, MayScratch};

use answers::{Done, Fault};
use diskcheck::Checked;
use geometry::{Address, Layout};

// Sets every byte of sector n of an image to 0, and gives the link that the sector had.
fn unlink(img: &mut [u8], n: usize) -> Address
    requires { Inside img.old n }
    ensures { SectorCleared img.old n (address_of result) img.new }
{
    let start = 256 * n;
    let sector = &mut img[start..start + 256];
    let link = Address {
        track: sector[0],
        sector: sector[1],
    };
    sector.fill(0);
    link
}

// Clears the sectors of the chain that starts at `first`, and marks them free in the map. Each link is read before its sector is cleared.
// Gives the number of bytes and of sectors that the chain had.
fn clear_chain(layout: Layout, img: &mut [u8], first: Address, map: &mut [[u8; 4]; 40]) -> Done
    requires { ChainOwned (geometry_of layout) img.old map.old (address_of first) }
    ensures { ChainCleared (geometry_of layout) img.old (address_of first) result img.new map.new }
{
    let mut at = first;
    let mut sectors: u16 = 0;
    // no plainer: where the chain ends is met on the way, and its sectors are counted for the report
    loop {
        let n = geometry::number_of(at);
        bam::move_mark(map, at, true);
        at = unlink(img, n);
        sectors += 1;
        if at.track == 0 {
            return Done {
                length: reading::file_length(sectors, at.sector),
                sectors,
            };
        }
    }
}

// The first sector of the file of slot `index` of 18/holder.
fn first_of(layout: Layout, img: &[u8], holder: u8, index: usize) -> Address
    ensures { address_of result ≡ start_of (geometry_of layout) img.now holder index }
{
    let slot = entry::slot(sectors::sector(img, 357 + holder as usize), index);
    // the slot may be short here, so that the bytes are asked as 0 past its end
    Address {
        track: parts::byte_at(slot, 1),
        sector: parts::byte_at(slot, 2),
    }
}

// Zeroes bytes 02-1F of slot `index` of 18/holder, and puts the map into its sector.
fn clear_slot(layout: Layout, img: &mut [u8], holder: u8, index: usize, map: &[[u8; 4]; 40])
    requires { index < 8 }
    ensures { MapWritten (geometry_of layout) (overwritten_in img.old (357 + holder) (32 * index + 2) (zeros 30)) map.now
        img.new }
{
    sectors::overwrite_in(img, 357 + holder as usize, 32 * index + 2, &[0u8; 30]);
    bam::write_map(layout, img, map);
}

// Scratches the file of slot `index` of the directory sector 18/holder of a checked image: clears its chain, and then the slot; the map follows.
fn scratch_slot(layout: Layout, img: &mut [u8], holder: u8, index: usize) -> Done
    requires { FileThere (geometry_of layout) img.old holder index }
    ensures { reply_of (Ok result) img.new []
        ≡ reply img.old [] (done (scratch_change (geometry_of layout) img.old
        (file_on (geometry_of layout) img.old holder 0 index))) }
{
    let first = first_of(layout, img, holder, index);
    let mut map = bam::map_of(layout, img);
    let cleared = clear_chain(layout, img, first, &mut map);
    clear_slot(layout, img, holder, index, &map);
    cleared
}

// The same for the file of this name on a checked image that may be written; refused with 13 where no slot has the name.
fn scratch_named(
    layout: Layout,
    img: &mut [u8],
    name: &[u8],
    checked: &Checked,
) -> Result<Done, Fault>
    requires { MayScratch (geometry_of layout) img.old name.now checked.now }
    ensures { reply_of result img.new [] ≡ perform (geometry_of layout) img.old (scratch name.now) }
{
    let track18 = sectors::track18(img);
    let Some(k) = finding::find_named(track18, &checked.sectors, name, 8 * checked.count) else {
        return Err(Fault::NotFound);
    };
    Ok(scratch_slot(layout, img, checked.sectors[k / 8], k % 8))
}

// The same on any checked image; refused with 11 where the DOS version forbids writing.
fn scratch_checked(
    layout: Layout,
    img: &mut [u8],
    name: &[u8],
    checked: &Checked,
) -> Result<Done, Fault>
    requires { CheckedSlots (geometry_of layout) img.old checked.now.sectors (8 * checked.now.count)
        × (valid_name_argument name.now ≡ true) }
    ensures { reply_of result img.new [] ≡ perform (geometry_of layout) img.old (scratch name.now) }
{
    if !bam::may_write(layout, img) {
        return Err(Fault::WriteForbidden);
    }
    scratch_named(layout, img, name, checked)
}

// Scratches the file of this name: zeroes its sectors and bytes 02-1F of its slot, and frees the sectors in the map; reports its length and its
// number of sectors. Refused with 1, 9, 2 to 8, 11 or 13, in this order; a refusal leaves the image as it was.
pub fn scratch_file(layout: Layout, img: &mut [u8], name: &[u8]) -> Result<Done, Fault>
    ensures { reply_of result img.new [] ≡ perform (geometry_of layout) img.old (scratch name.now) }
{
    // size and name are asked alike in four calls, and what comes next differs: a store asks the kind, a format runs no check
    if img.len() != geometry::image_size(layout) {
        return Err(Fault::WrongSize);
    }
    if !names::valid_name_argument(name) {
        return Err(Fault::BadNameArgument);
    }
    let checked = diskcheck::check_image(layout, img)?;
    scratch_checked(layout, img, name, &checked)
}
