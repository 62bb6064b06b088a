// The sleeve listing (01, Sleeve listing): the library call on any bytes and any text buffer, and what the program prints.
// Every refusal is made before the first byte of the text is written, and reports length 0 and 0 sectors.
#![tactic(auto)]

mod lines;
mod slots;

ghost use Rattle.std.specs.Prelude.{◌≡◌, ◌+◌, ◌*◌, ◌≤◌, length};
ghost use Rattle.geometry.specs.Layout.{geometry_of};
ghost use Rattle.d64spec.specs.Answers.{answer_of};
ghost use Rattle.d64spec.specs.Listing.{call_listing, disk_of_track18, free_total, head_frame, line, listing_output, listing_text, refusal_line, sleeve_output};
ghost use Rattle.answers.specs.Faults.{fault_of};
ghost use Rattle.layouts.specs.Named.{named_by};
ghost use Rattle.sleeve.specs.Texts.{counts_from, occupied_of, Prints, program_output, ReadySlots, RoomFor, SlotsListed, blank_text, free_line};
ghost use Rattle.sleeve.specs.Sleeves.{SleeveListed};

use answers::{Answer, Done, Fault};
use directory::Directory;
use geometry::Layout;

// The bytes of the longest listing: two lines of 37 and 5, and 144 of 43 (01, Sleeve listing).
const TEXT_BYTES: usize = 6234;

// What the program prints: the first `length` bytes of the text, which is never shorter. The length stands beside it: no heap, fixed memory.
#[derive(Drop)]
pub struct Printed {
    pub text: [u8; TEXT_BYTES],
    pub length: usize,
}

// The count bytes of n map entries that stand behind one another from `at` on, added as they stand.
fn sum_counts(map: &[u8], at: usize, n: usize) -> u16
    requires { (length map.now ≡ 256) × (at + 4 * n ≤ 256) }
    ensures { result ≡ counts_from map.now at n }
{
    let mut sum: u16 = 0;
    // not by an iterator: every fourth byte, for which the index is as short
    for i in 0..n {
        sum += map[at + 4 * i] as u16;
    }
    sum
}

// The map's count bytes added, as they stand, but for track 18's.
fn free_total(layout: Layout, map: &[u8]) -> u16
    requires { length map.now ≡ 256 }
    ensures { result ≡ free_total (geometry_of layout) map.now }
{
    let most = sum_counts(map, 4, 17) + sum_counts(map, 76, 17);
    match geometry::extra_entries(layout) {
        Some(extra) => most + sum_counts(map, extra, 5),
        None => most,
    }
}

// Fills the text with the first line: the map sector's bytes 90 to 9F and A2 to A3.
#[tactic(auto, unfolding(d64spec::specs::Listing::head_frame))]
fn write_head(map: &[u8], text: &mut [u8])
    requires { (length map.now ≡ 256) × (length text.old ≡ 37) }
    ensures { text.new ≡ line (head_frame map.now) }
{
    lines::write_line(&map[144..160], &map[162..164], text);
}

// Fills the text with the last line: the free sectors in two bytes, high first.
fn write_free(layout: Layout, map: &[u8], text: &mut [u8])
    requires { (length map.now ≡ 256) × (length text.old ≡ 5) }
    ensures { text.new ≡ free_line (geometry_of layout) map.now }
{
    let free = free_total(layout, map);
    let [high, low] = free.to_be_bytes();
    lines::write_line(&[high], &[low], text);
}

// Fills the text: the disk's name and id, a line for each occupied slot, the free sectors.
fn write_text(layout: Layout, track18: &[u8], read: &Directory, text: &mut [u8])
    requires { RoomFor track18.now read.now text.old 42 }
    ensures { text.new ≡ listing_text (geometry_of layout) (disk_of_track18 (geometry_of layout) track18.now)
        (occupied_of track18.now read.now) }
{
    let map = &track18[0..256];
    let last = text.len() - 5;
    write_head(map, &mut text[0..37]);
    slots::write_slots(track18, read, &mut text[37..last]);
    write_free(layout, map, &mut text[last..]);
}

// Lists the slots of a directory that was read: refused with 4 to 6 or, last, 16.
fn list_slots(
    layout: Layout,
    track18: &[u8],
    read: &Directory,
    text: &mut [u8],
) -> Result<Done, Fault>
    requires { ReadySlots track18.now read.now }
    ensures { SlotsListed (geometry_of layout) track18.now (occupied_of track18.now read.now) text.old result text.new }
{
    let files = slots::check_slots(track18, read)?;
    let length = 43 * files + 42;
    if text.len() < length {
        return Err(Fault::WrongBuffer);
    }
    write_text(layout, track18, read, &mut text[..length]);
    Ok(Done {
        length: length as u32,
        sectors: 0,
    })
}

// Lists track 18's bytes into the text buffer, from its start; the rest of it stays. Refused with 1, 2 to 6 or, last, 16.
pub fn list_track18(layout: Layout, track18: &[u8], text: &mut [u8]) -> Result<Done, Fault>
    ensures { SleeveListed (geometry_of layout) track18.now text.old result text.new }
{
    let read = directory::read_directory(track18)?;
    list_slots(layout, track18, &read, text)
}

// A fault, printed: its number, one line of two digits.
fn print_fault(fault: Fault) -> Printed
    ensures { Prints (refusal_line (answer_of (fault_of fault)).number) result }
{
    let number = Answer::from(fault).number;
    let mut line = [0u8; TEXT_BYTES];
    line[0] = lines::digit(number / 10);
    line[1] = lines::digit(number % 10);
    line[2] = b'\n';
    Printed {
        text: line,
        length: 3,
    }
}

// The listing of track 18's bytes, printed, or its fault.
fn print_listing(layout: Layout, track18: &[u8]) -> Printed
    ensures { Prints (listing_output (call_listing (geometry_of layout) track18.now blank_text)) result }
{
    let mut text = [0u8; TEXT_BYTES];
    match list_track18(layout, track18, &mut text) {
        Ok(done) => Printed {
            text,
            length: done.length as usize,
        },
        Err(fault) => print_fault(fault),
    }
}

// What the program prints in a layout, given its whole standard input: the listing of an image's track 18, or the refusal's number.
pub fn sleeve_output(layout: Layout, input: &[u8]) -> Printed
    ensures { Prints (sleeve_output (geometry_of layout) input.now) result }
{
    if input.len() != geometry::image_size(layout) {
        return print_fault(Fault::WrongSize);
    }
    // not by sectors::track18, which knows no layout and gives less where the input is short: it is whole here
    print_listing(layout, &input[91392..96256])
}

// What the program prints: the same in the layout that it was asked for, or 17 where there is no such layout.
pub fn program_output(asked: Option<Layout>, input: &[u8]) -> Printed
    ensures { Prints (program_output (named_by asked) input.now) result }
{
    match asked {
        Some(layout) => sleeve_output(layout, input),
        None => print_fault(Fault::UnknownLayout),
    }
}
