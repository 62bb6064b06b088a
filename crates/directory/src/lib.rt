// The directory, read from track 18's bytes alone (01, The directory; Order of the check, step 2): its sectors in link order, the first
// slot that repeats an earlier slot's name, and the sectors that it owns. Track 18 is the same in every layout, so that no function here takes one. The
// check and the sleeve listing both start here.
// Every public function takes any bytes.
#![tactic(auto)]

mod repeats;
mod walk;

ghost use Rattle.std.specs.Prelude.{◌≡◌};
ghost use Rattle.d64spec.specs.Geometry.{Geometry, sectors_on};
ghost use Rattle.answers.specs.Faults.{sector_of, verdict_of};
ghost use Rattle.directory.specs.Directories.{DirectoryRead, IsSlot, entry_verdict};

use answers::{Fault, Place};

// The directory's sectors on track 18 in link order, 18/sectors[0] to 18/sectors[count - 1], with zeros after them; the number of the first slot
// that repeats the name field of an earlier one, where one does; and the sectors of track 18 that have an owner then, bit s for sector s.
// No heap: the array has room for all, and the count beside it says how many there are.
#[derive(Drop)]
pub struct Directory {
    pub sectors: [u8; 18],
    pub count: usize,
    pub repeated: Option<usize>,
    pub used: u32,
}

// Bytes 02 to 1F of slot k, eight to a directory sector; fewer, or none, where track 18 does not have them. Past the last sector it is a slot of
// 18/0, as the definition has it.
pub fn slot_at<'a>(track18: &'a [u8], sectors: &[u8; 18], k: usize) -> &'a [u8]
    ensures { IsSlot track18.now sectors.now k result.now }
{
    let Some(&sector) = sectors.get(k / 8) else {
        return entry::slot(sectors::sector(track18, 0), k % 8);
    };
    let s = sector as usize;
    let start = 256 * s + 32 * (k % 8) + 2;
    if start + 30 <= track18.len() {
        return &track18[start..start + 30];
    }
    entry::slot(sectors::sector(track18, s), k % 8)
}

// Kind and flags, name, name used by an earlier slot: what the check and the sleeve listing both ask of an occupied slot, in this order.
#[tactic(auto, unfolding(answers::specs::Faults::verdict_of, answers::specs::Faults::fault_of, crate::specs::Directories::entry_verdict))]
pub fn check_entry(slot: &[u8], at: Place, repeated: bool) -> Result<(), Fault>
    ensures { verdict_of result ≡ entry_verdict slot.now (sector_of at) at.slot repeated }
{
    if !entry::valid_type(entry::type_byte(slot)) {
        return Err(Fault::BadType(at));
    }
    if !names::valid_name(slot) {
        return Err(Fault::BadName(at));
    }
    if repeated {
        return Err(Fault::DuplicateName(at));
    }
    Ok(())
}

// Reads the directory of track 18: refused with 1 unless it has 4,864 bytes, else along the links from 18/1 on.
pub fn read_directory(track18: &[u8]) -> Result<Directory, Fault>
    ensures { (g : Geometry) → sectors_on g 18 ≡ 19 → DirectoryRead g track18.now result }
{
    if track18.len() != 4864 {
        return Err(Fault::WrongSize);
    }
    // 18/0 is owned from the start
    let mut own = [0u8; 19];
    own[0] = 1;
    let walked = walk::walk_directory(track18, &mut own, 1)?;
    let repeated = repeats::first_repeated(track18, &walked.sectors, 8 * walked.count);
    Ok(Directory {
        sectors: walked.sectors,
        count: walked.count,
        repeated,
        used: walked.used,
    })
}
