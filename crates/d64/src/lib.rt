// The calls of the mastering program, which is in C (01, Host calls): numbers and byte slices, a slice as its pointer and then its length.
// Each one is refused with 16 before all else where the answer block is not nine bytes; then nothing is read or written.
// Next it is refused with 17 where its first number names no layout (02, §8).
// Seven functions with seven lists of arguments are what C asks for: what they share is the test of the block, and the answer that is given.
#![tactic(auto)]

ghost use Rattle.std.specs.Prelude.{◌≡◌, []};
ghost use Rattle.d64spec.specs.Call.{check, format, read, store, scratch};
ghost use Rattle.d64spec.specs.Host.{host_call_in, perform_in};
ghost use Rattle.d64spec.specs.Layouts.{layout_numbered};
ghost use Rattle.geometry.specs.Layout.{geometry_of};
ghost use Rattle.answers.specs.Faults.{reply_of, result_of};
ghost use Rattle.reading.specs.Replies.{information_of};
ghost use Rattle.d64.specs.HostForms.{entry_bytes, host_tell_in, host_listing_in, listing_in, tell_in};
ghost use Rattle.d64.specs.HostCalls.{HostServed};

use answers::{Done, Fault};
use geometry::Layout;
use reading::FileInformation;

// The answer block: track, sector, slot, length in four bytes, sectors in two (01, Host calls).
const BLOCK_BYTES: usize = 9;
// The number of a refusal for a block of any other size.
const WRONG_BUFFER: u32 = 16;

// The layout of a number (02, §8), or 17.
fn layout_of(number: u32) -> Result<Layout, Fault>
    ensures { result_of geometry_of result ≡ layout_numbered number }
{
    Layout::try_from(number).map_err(|_| Fault::UnknownLayout)
}

// Checks the image in the layout of this number. Nothing is reported but the fault.
fn check_in(layout: u32, image: &[u8]) -> Result<Done, Fault>
    ensures { reply_of result image.now [] ≡ perform_in layout image.now check }
{
    let layout = layout_of(layout)?;
    diskcheck::check_image(layout, image)?;
    Ok(Done::default())
}

// Checks the image: the first fault of steps 1 to 4 with its place, or 0. It reports length 0 and 0 sectors.
pub fn d64_check(layout: u32, image: &[u8], answer: &mut [u8]) -> u32
    ensures { HostServed (host_call_in layout image.now answer.old check) result image.now [] answer.new }
{
    if answer.len() != BLOCK_BYTES {
        return WRONG_BUFFER;
    }
    answers::give_answer(check_in(layout, image), answer)
}

// Reads a file in the layout of this number.
fn read_in(layout: u32, image: &[u8], name: &[u8], out: &mut [u8]) -> Result<Done, Fault>
    ensures { reply_of result image.now out.new ≡ perform_in layout image.now (read name.now out.old) }
{
    let layout = layout_of(layout)?;
    reading::read_file(layout, image, name, out)
}

// Reads the file of this name to the start of the output, the rest of it as it was; reports its length and the sectors visited.
// Refused with 1, 9, 2 to 8, 13 or 16, in this order; a refusal leaves the output and reports 0 and 0.
pub fn d64_read(layout: u32, image: &[u8], name: &[u8], out: &mut [u8], answer: &mut [u8]) -> u32
    ensures { HostServed (host_call_in layout image.now answer.old (read name.now out.old))
        result image.now out.new answer.new }
{
    if answer.len() != BLOCK_BYTES {
        return WRONG_BUFFER;
    }
    answers::give_answer(read_in(layout, image, name, out), answer)
}

// The 25 bytes that tell gives: type byte, 16 name bytes, track, sector, count in two bytes, length in four, low byte first.
fn entry_bytes(information: FileInformation) -> [u8; 25]
    ensures { result ≡ entry_bytes (information_of information) }
{
    let mut entry = [0u8; 25];
    entry[0] = information.type_byte;
    entry[1..17].copy_from_slice(&information.name);
    entry[17] = information.track;
    entry[18] = information.sector;
    entry[19..21].copy_from_slice(&information.count.to_le_bytes());
    entry[21..].copy_from_slice(&information.length.to_le_bytes());
    entry
}

// Tells about a file in the layout of this number: its 25 bytes go to the start of the entry, which is refused last where it is shorter.
fn tell_in(layout: u32, image: &[u8], position: usize, entry: &mut [u8]) -> Result<Done, Fault>
    ensures { reply_of result image.now entry.new ≡ tell_in layout image.now position entry.old }
{
    let layout = layout_of(layout)?;
    let information = reading::tell_file(layout, image, position)?;
    let filled = entry_bytes(information);
    if entry.len() < filled.len() {
        return Err(Fault::WrongBuffer);
    }
    entry[..filled.len()].copy_from_slice(&filled);
    Ok(Done::default())
}

// Tells about the file at a position, counted from 0 among the occupied slots: 25 bytes at the start of the entry, the rest of it as it
// was. Refused with 1, 2 to 8, 13 or, for an entry of fewer than 25 bytes, 16, in this order; a refusal leaves the entry.
pub fn d64_tell(
    layout: u32,
    image: &[u8],
    position: usize,
    entry: &mut [u8],
    answer: &mut [u8],
) -> u32
    ensures { HostServed (host_tell_in layout image.now answer.old position entry.old)
        result image.now entry.new answer.new }
{
    if answer.len() != BLOCK_BYTES {
        return WRONG_BUFFER;
    }
    answers::give_answer(tell_in(layout, image, position, entry), answer)
}

// Lists track 18 in the layout of this number.
fn listing_in(layout: u32, track18: &[u8], text: &mut [u8]) -> Result<Done, Fault>
    ensures { reply_of result track18.now text.new ≡ listing_in layout track18.now text.old }
{
    let layout = layout_of(layout)?;
    sleeve::list_track18(layout, track18, text)
}

// Lists the 4,864 bytes of track 18 into the text, from its start, the rest of it as it was; reports the length of the listing.
// Refused with 1, 2 to 6 or, for a text that is too short, 16; a refusal leaves the text and reports 0.
pub fn d64_listing(layout: u32, track18: &[u8], text: &mut [u8], answer: &mut [u8]) -> u32
    ensures { HostServed (host_listing_in layout track18.now answer.old text.old)
        result track18.now text.new answer.new }
{
    if answer.len() != BLOCK_BYTES {
        return WRONG_BUFFER;
    }
    answers::give_answer(listing_in(layout, track18, text), answer)
}

// Formats the image in the layout of this number.
fn format_in(layout: u32, image: &mut [u8], name: &[u8], id1: u8, id2: u8) -> Result<Done, Fault>
    ensures { reply_of result image.new [] ≡ perform_in layout image.old (format name.now id1 id2) }
{
    let layout = layout_of(layout)?;
    formatting::format_image(layout, image, name, id1, id2)
}

// Formats the image: an empty disk of this name and these two id bytes, every other byte of it 0. It reports length 0 and 0 sectors.
// Refused with 1 or 9, in this order; a refusal leaves the image and reports 0 and 0.
pub fn d64_format(
    layout: u32,
    image: &mut [u8],
    name: &[u8],
    id1: u8,
    id2: u8,
    answer: &mut [u8],
) -> u32
    ensures { HostServed (host_call_in layout image.old answer.old (format name.now id1 id2))
        result image.new [] answer.new }
{
    if answer.len() != BLOCK_BYTES {
        return WRONG_BUFFER;
    }
    answers::give_answer(format_in(layout, image, name, id1, id2), answer)
}

// Stores a file in the layout of this number.
fn store_in(
    layout: u32,
    image: &mut [u8],
    name: &[u8],
    kind: u32,
    content: &[u8],
) -> Result<Done, Fault>
    ensures { reply_of result image.new [] ≡ perform_in layout image.old (store name.now kind content.now) }
{
    let layout = layout_of(layout)?;
    storing::store_file(layout, image, name, kind, content)
}

// Stores a new file of this name, this kind and these bytes; reports its length and its number of sectors.
// Refused with 1, 9, 10, 2 to 8, 11, 12, 14 or 15, in this order; a refusal leaves the image and reports 0 and 0.
pub fn d64_store(
    layout: u32,
    image: &mut [u8],
    name: &[u8],
    kind: u32,
    content: &[u8],
    answer: &mut [u8],
) -> u32
    ensures { HostServed (host_call_in layout image.old answer.old (store name.now kind content.now))
        result image.new [] answer.new }
{
    if answer.len() != BLOCK_BYTES {
        return WRONG_BUFFER;
    }
    answers::give_answer(store_in(layout, image, name, kind, content), answer)
}

// Scratches a file in the layout of this number.
fn scratch_in(layout: u32, image: &mut [u8], name: &[u8]) -> Result<Done, Fault>
    ensures { reply_of result image.new [] ≡ perform_in layout image.old (scratch name.now) }
{
    let layout = layout_of(layout)?;
    scratching::scratch_file(layout, image, name)
}

// Scratches the file of this name: its sectors and its slot zeroed, its sectors free; reports its length and its number of sectors.
// Refused with 1, 9, 2 to 8, 11 or 13, in this order; a refusal leaves the image and reports 0 and 0.
pub fn d64_scratch(layout: u32, image: &mut [u8], name: &[u8], answer: &mut [u8]) -> u32
    ensures { HostServed (host_call_in layout image.old answer.old (scratch name.now))
        result image.new [] answer.new }
{
    if answer.len() != BLOCK_BYTES {
        return WRONG_BUFFER;
    }
    answers::give_answer(scratch_in(layout, image, name), answer)
}
