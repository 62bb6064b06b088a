// The occupied slots of the directory, checked and counted, and their lines (01, Sleeve listing).
ghost use Rattle.std.specs.Prelude.{◌≡◌, length};
ghost use Rattle.d64spec.specs.Listing.{line, slot_frame};
ghost use Rattle.answers.specs.Faults.{result_of};
ghost use Rattle.sleeve.specs.Texts.{ReadySlots, RoomFor, count_slots, lines_of, occupied_of};

use answers::{Fault, Place};
use directory::Directory;

// Asks of each occupied slot what track 18 shows, and counts them. The check's loop over the slots is another: it claims each file's chain as it goes.
pub(crate) fn check_slots(track18: &[u8], read: &Directory) -> Result<usize, Fault>
    requires { ReadySlots track18.now read.now }
    ensures { result_of (λ files. files) result ≡ count_slots (occupied_of track18.now read.now) }
{
    let mut files = 0;
    for k in 0..8 * read.count {
        let slot = directory::slot_at(track18, &read.sectors, k);
        if !entry::is_empty(slot) {
            let place = Place {
                track: 18,
                sector: read.sectors[k / 8],
                slot: k as u8,
            };
            directory::check_entry(slot, place, read.repeated == Some(k))?;
            files += 1;
        }
    }
    Ok(files)
}

// Fills the text with a slot's line: its bytes 02 to 14 and 1E to 1F.
#[tactic(auto, unfolding(d64spec::specs::Listing::slot_frame))]
fn write_slot(slot: &[u8], text: &mut [u8])
    requires { (length slot.now ≡ 30) × (length text.old ≡ 43) }
    ensures { text.new ≡ line (slot_frame slot.now) }
{
    crate::lines::write_line(&slot[0..19], &slot[28..30], text);
}

// Fills the text with a line for each occupied slot.
pub(crate) fn write_slots(track18: &[u8], read: &Directory, text: &mut [u8])
    requires { RoomFor track18.now read.now text.old 0 }
    ensures { text.new ≡ lines_of (occupied_of track18.now read.now) }
{
    let mut at = 0;
    for k in 0..8 * read.count {
        let slot = directory::slot_at(track18, &read.sectors, k);
        if !entry::is_empty(slot) {
            write_slot(slot, &mut text[at..at + 43]);
            at += 43;
        }
    }
}
