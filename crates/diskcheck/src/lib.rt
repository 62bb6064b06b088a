// The whole check of an image in a layout, for any bytes: document 01's four steps in its order (01, Order of the check; 02, §8).
// The directory's sectors and the files' ends are handed back, so that the calls need no second check. On the way the owner table is filled, and beside
// it the mask of each track's owned sectors, which step 4 compares with the map.
#![tactic(auto)]

mod chain;
mod slots;

ghost use Rattle.std.specs.Prelude.{◌≡◌, ◌*◌, ◌<◌, map, length};
ghost use Rattle.d64spec.specs.Lists.{All, zeros};
ghost use Rattle.d64spec.specs.Answers.{address};
ghost use Rattle.d64spec.specs.Geometry.{total, sector_number, map_address};
ghost use Rattle.d64spec.specs.Image.{disk};
ghost use Rattle.geometry.specs.Layout.{geometry_of};
ghost use Rattle.answers.specs.Faults.{verdict_of, where_fine};
ghost use Rattle.owners.specs.OwnerTable.{directory_table};
ghost use Rattle.mapcheck.specs.MapChecks.{map_verdict};
ghost use Rattle.diskcheck.specs.SlotChecks.{tables, SlotsReady};
ghost use Rattle.diskcheck.specs.ImageChecks.{ImageChecked, tables_before, OwnersReady, rest_step};

use answers::Fault;
use directory::Directory;
use geometry::Layout;

// What is handed back of an image without a fault: the directory's sectors on track 18 in link order, with zeros after them; and for each slot of a file
// the number of the last byte that the file uses in its last sector, 1 to 255, else 0.
// No heap: the array has room for all sectors, and the count says how many there are. 0 is no end: document 01's byte is never 0, and the
// definition EndTable.end_table has it so.
#[derive(Drop)]
pub struct Checked {
    pub sectors: [u8; 18],
    pub count: usize,
    pub ends: [u8; 144],
}

// The map of an image against the masks of owned sectors.
fn check_marks(layout: Layout, img: &[u8], used: &[u32; 40]) -> Result<(), Fault>
    requires { length img.now ≡ 256 * total (geometry_of layout) }
    ensures { verdict_of result
        ≡ map_verdict (geometry_of layout) (disk img.now (sector_number (geometry_of layout) map_address)) used.now }
{
    mapcheck::check_map(layout, &img[91392..91648], used)
}

// The slots, then the map.
fn check_rest(
    layout: Layout,
    img: &[u8],
    own: &mut [u8],
    used: &mut [u32; 40],
    ends: &mut [u8; 144],
    directory: &Directory,
) -> Result<(), Fault>
    requires { SlotsReady (geometry_of layout) img.now (tables own.old ends.old) used.old directory.now }
    ensures { where_fine result (tables own.new ends.new)
        ≡ rest_step (geometry_of layout) img.now (tables own.old ends.old) directory.now.sectors directory.now.count }
{
    slots::check_slots(layout, img, own, used, ends, directory)?;
    check_marks(layout, img, used)
}

// The owners before any file: 18/0 is the map's, and the sectors of the directory are its own.
// Owners are numbers, one byte for each sector, as the definition OwnerTable.owner_table has them: 1, 2, and 3 and the slot's number.
fn claim_directory(layout: Layout, own: &mut [u8], sectors: &[u8])
    requires { (own.old ≡ zeros (total (geometry_of layout))) × All (λ s. s < 19) sectors.now }
    ensures { own.new ≡ directory_table (geometry_of layout) (map (λ s. address 18 s) sectors.now) }
{
    own[357] = 1;
    for s in sectors {
        own[357 + *s as usize] = 2;
    }
}

// Steps 3 and 4 with the owner table, which has no owner yet, and the directory as it was read. Where there is no fault, the table then says who owns
// each sector: 0 nobody, 1 the map, 2 the directory, 3 and its slot's number a file.
fn check_owners(
    layout: Layout,
    img: &[u8],
    own: &mut [u8],
    ends: &mut [u8; 144],
    directory: &Directory,
) -> Result<(), Fault>
    requires { OwnersReady (geometry_of layout) img.now (tables own.old ends.old) directory.now }
    ensures { where_fine result (tables own.new ends.new)
        ≡ rest_step (geometry_of layout) img.now (tables_before (geometry_of layout) directory.now.sectors directory.now.count)
        directory.now.sectors directory.now.count }
{
    claim_directory(layout, own, &directory.sectors[..directory.count]);
    let mut used = [0u32; 40];
    used[17] = directory.used;
    check_rest(layout, img, own, &mut used, ends, directory)
}

// Checks an image: the size, the directory, the slots, the map. The first fault met is handed back.
pub fn check_image(layout: Layout, img: &[u8]) -> Result<Checked, Fault>
    ensures { ImageChecked (geometry_of layout) img.now result }
{
    if img.len() != geometry::image_size(layout) {
        return Err(Fault::WrongSize);
    }
    let directory = directory::read_directory(sectors::track18(img))?;
    let mut owners = [0u8; 768];
    let all = geometry::all_sectors(layout);
    let mut ends = [0u8; 144];
    check_owners(layout, img, &mut owners[..all], &mut ends, &directory)?;
    Ok(Checked {
        sectors: directory.sectors,
        count: directory.count,
        ends,
    })
}
