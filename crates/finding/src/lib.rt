// The slot of a file, by its name or by its position among the occupied slots, and the first empty slot.
// `end` is a number of slots and `sectors` are the directory's on track 18: any bytes, any sectors and any numbers are taken. A `&Directory` in their place
// would ask more of callers, and docs/MAP.md names these functions.
// A slot is lent as its bytes 02 to 1F, so byte i of document 01 is at i - 2: its type is at 0, its name from 3 on.
#![tactic(auto)]

ghost use Rattle.std.specs.Prelude.{◌≡◌};
ghost use Rattle.directory.specs.Directories.{found};
ghost use Rattle.finding.specs.FileSlots.{slot_named, slot_placed, slot_empty, WordsCompared};

// Whether a slot is occupied and has the name that, filled up to 16 bytes, is these two numbers: eight bytes each.
fn has_words(slot: &[u8], x: u64, y: u64) -> bool
    ensures { WordsCompared slot.now x y result }
{
    if slot.len() < 19 || slot[0] == 0 {
        return false;
    }
    parts::eight_at(slot, 3) == x && parts::eight_at(slot, 11) == y
}

// The first of the slots 0 to end - 1 that holds the name, where one does. No name field holds a name of more than 16 bytes.
pub fn find_named(track18: &[u8], sectors: &[u8; 18], name: &[u8], end: usize) -> Option<usize>
    ensures { result ≡ found end (slot_named track18.now sectors.now name.now 0 end) }
{
    if 16 < name.len() {
        return None;
    }
    let field = names::padded_name(name);
    let x = parts::eight_at(&field, 0);
    let y = parts::eight_at(&field, 8);
    (0..end).find(|&k| has_words(directory::slot_at(track18, sectors, k), x, y))
}

// The first of the slots 0 to end - 1 that is empty, where one is.
pub fn find_empty(track18: &[u8], sectors: &[u8; 18], end: usize) -> Option<usize>
    ensures { result ≡ found end (slot_empty track18.now sectors.now 0 end) }
{
    (0..end).find(|&k| entry::is_empty(directory::slot_at(track18, sectors, k)))
}

// The slot of the file at a position among the occupied ones, where there are so many.
pub fn find_placed(track18: &[u8], sectors: &[u8; 18], position: usize, end: usize) -> Option<usize>
    ensures { result ≡ found end (slot_placed track18.now sectors.now position 0 end) }
{
    (0..end)
        .filter(|&k| !entry::is_empty(directory::slot_at(track18, sectors, k)))
        .nth(position)
}
