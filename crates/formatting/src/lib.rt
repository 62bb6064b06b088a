// Format (01, What the calls do): an image all zero except 18/0 and 18/1. It runs no check; only 1 and 9 refuse it.
#![tactic(auto)]

ghost use Rattle.std.specs.Prelude.{◌≡◌, [], ◌*◌, ◌≤◌, length};
ghost use Rattle.geometry.specs.Layout.{geometry_of};
ghost use Rattle.d64spec.specs.Geometry.{total};
ghost use Rattle.d64spec.specs.Image.{image};
ghost use Rattle.d64spec.specs.Format.{format_header, formatted_disk, formatted_map};
ghost use Rattle.d64spec.specs.Call.{format, perform};
ghost use Rattle.answers.specs.Faults.{reply_of};

use answers::{Done, Fault};
use geometry::Layout;

// A track whose sectors are all free, by the number of them: the count and three bitmap bytes.
const FREE_21: [u8; 4] = [21, 0xFF, 0xFF, 0x1F];

const FREE_19: [u8; 4] = [19, 0xFF, 0xFF, 0x07];

const FREE_18: [u8; 4] = [18, 0xFF, 0xFF, 0x03];

const FREE_17: [u8; 4] = [17, 0xFF, 0xFF, 0x01];

// Track 18 of a fresh disk: all free but 18/0 and 18/1.
const TRACK_18: [u8; 4] = [17, 0xFC, 0xFF, 0x07];

// The map of a fresh disk, from track 1 on. The first 35 entries are alike in all layouts.
static FRESH_MAP: [[u8; 4]; 40] = [
    FREE_21, FREE_21, FREE_21, FREE_21, FREE_21, FREE_21, FREE_21, FREE_21, FREE_21, FREE_21,
    FREE_21, FREE_21, FREE_21, FREE_21, FREE_21, FREE_21, FREE_21, TRACK_18, FREE_19, FREE_19,
    FREE_19, FREE_19, FREE_19, FREE_19, FREE_18, FREE_18, FREE_18, FREE_18, FREE_18, FREE_18,
    FREE_17, FREE_17, FREE_17, FREE_17, FREE_17, FREE_17, FREE_17, FREE_17, FREE_17, FREE_17,
];

// 18/0 of a fresh disk but for the map: each run of bytes at its offset, zero elsewhere.
fn fresh_header(name: &[u8], id1: u8, id2: u8) -> [u8; 256]
    requires { length name.now ≤ 16 }
    ensures { result ≡ format_header name.now id1 id2 }
{
    let mut m = [0u8; 256];
    parts::overwrite(&mut m, 0x00, &[0x12, 0x01, 0x41, 0x00]);
    parts::overwrite(&mut m, 0x90, &names::padded_name(name));
    parts::overwrite(
        &mut m,
        0xA0,
        &[
            0xA0, 0xA0, id1, id2, 0xA0, 0x32, 0x41, 0xA0, 0xA0, 0xA0, 0xA0,
        ],
    );
    m
}

// 18/0 of a fresh disk.
fn fresh_map_sector(layout: Layout, name: &[u8], id1: u8, id2: u8) -> [u8; 256]
    requires { length name.now ≤ 16 }
    ensures { result ≡ formatted_map (geometry_of layout) name.now id1 id2 }
{
    let mut m = fresh_header(name, id1, id2);
    bam::store_map(layout, &FRESH_MAP, &mut m);
    m
}

// Writes a fresh disk over an image of the right size: zeros, then 18/1, then 18/0.
fn write_fresh(layout: Layout, img: &mut [u8], name: &[u8], id1: u8, id2: u8)
    requires { (length img.old ≡ 256 * total (geometry_of layout)) × (length name.now ≤ 16) }
    ensures { img.new ≡ image (geometry_of layout) (formatted_disk (geometry_of layout) name.now id1 id2) }
{
    img.fill(0);
    let first = sectors::empty_directory_sector();
    sectors::write_sector(img, 358, &first);
    let m = fresh_map_sector(layout, name, id1, id2);
    sectors::write_sector(img, 357, &m);
}

// Formats an image: all zero except 18/0 and 18/1. Refused with 1 or 9, in this order; a refusal leaves the image as it was.
pub fn format_image(
    layout: Layout,
    img: &mut [u8],
    name: &[u8],
    id1: u8,
    id2: u8,
) -> Result<Done, Fault>
    ensures { reply_of result img.new [] ≡ perform (geometry_of layout) img.old (format name.now id1 id2) }
{
    // size and name are asked alike in four calls, and what comes next differs: a store asks the kind, a format runs no check
    if img.len() != geometry::image_size(layout) {
        return Err(Fault::WrongSize);
    }
    if !names::valid_name_argument(name) {
        return Err(Fault::BadNameArgument);
    }
    write_fresh(layout, img, name, id1, id2);
    Ok(Done::default())
}
