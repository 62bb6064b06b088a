// Step 3 of the check: the occupied slots in directory order (01, Order of the check, 3).
ghost use Rattle.std.specs.Prelude.{◌≡◌, ◌*◌};
ghost use Rattle.answers.specs.Faults.{sector_of, where_fine};
ghost use Rattle.geometry.specs.Layout.{geometry_of};
ghost use Rattle.owners.specs.Masks.{Masks};
ghost use Rattle.diskcheck.specs.SlotChecks.{tables, FileReady, file_step, SlotReady, slot_step, SlotsReady, slots_step};

use crate::chain::claim_chain;
use answers::{Fault, Place};
use directory::Directory;
use geometry::{Address, Layout};

// The chain of an occupied slot, link by link, and then its count of sectors.
// `own`, `used` and `ends` stay apart, no plainer in a struct: one that holds a lent slice owes in each contract that it still holds the same one.
fn check_file(
    layout: Layout,
    img: &[u8],
    own: &mut [u8],
    used: &mut [u32; 40],
    ends: &mut [u8; 144],
    slot: &[u8],
    at: Place,
) -> Result<(), Fault>
    requires { FileReady (geometry_of layout) img.now (tables own.old ends.old) used.old slot.now at.slot }
    ensures step { where_fine result (tables own.new ends.new)
        ≡ file_step (geometry_of layout) img.now (tables own.old ends.old) slot.now (sector_of at) at.slot }
    ensures masks { Masks (geometry_of layout) own.new used.new }
{
    // two bytes of the slot, read where they are needed: a function for them would have to know slots and addresses
    let first = Address {
        track: slot[1],
        sector: slot[2],
    };
    let claim = claim_chain(layout, img, own, used, at, first)?;
    if claim.count != entry::sector_count(slot) as usize {
        return Err(Fault::WrongCount(at));
    }
    ends[at.slot as usize] = claim.end;
    Ok(())
}

// Slot k: nothing where it is empty; else its entry, its chain and its count.
fn check_slot(
    layout: Layout,
    img: &[u8],
    own: &mut [u8],
    used: &mut [u32; 40],
    ends: &mut [u8; 144],
    directory: &Directory,
    k: usize,
    repeated: bool,
) -> Result<(), Fault>
    requires { SlotReady (geometry_of layout) img.now (tables own.old ends.old) used.old directory.now k repeated }
    ensures step { where_fine result (tables own.new ends.new)
        ≡ slot_step (geometry_of layout) img.now (tables own.old ends.old) directory.now.sectors k }
    ensures masks { Masks (geometry_of layout) own.new used.new }
{
    let slot = directory::slot_at(sectors::track18(img), &directory.sectors, k);
    if slot[0] == 0 {
        return Ok(());
    }
    let at = Place {
        track: 18,
        sector: directory.sectors[k / 8],
        slot: k as u8,
    };
    directory::check_entry(slot, at, repeated)?;
    check_file(layout, img, own, used, ends, slot, at)
}

// All slots of a directory.
pub(crate) fn check_slots(
    layout: Layout,
    img: &[u8],
    own: &mut [u8],
    used: &mut [u32; 40],
    ends: &mut [u8; 144],
    directory: &Directory,
) -> Result<(), Fault>
    requires { SlotsReady (geometry_of layout) img.now (tables own.old ends.old) used.old directory.now }
    ensures step { where_fine result (tables own.new ends.new)
        ≡ slots_step (geometry_of layout) img.now (tables own.old ends.old) directory.now.sectors 0 (8 * directory.now.count) }
    ensures masks { Masks (geometry_of layout) own.new used.new }
{
    // compared as a number: an Option asked for each slot took a tenth more for 144 files
    let first = directory.repeated.unwrap_or(8 * directory.count);
    for k in 0..8 * directory.count {
        check_slot(layout, img, own, used, ends, directory, k, k == first)?;
    }
    Ok(())
}
