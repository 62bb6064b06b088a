// The archive that C links, libd64.a: each call of the crate d64 under its C name, with the same clauses (01, Host calls).
// A slice is its pointer and then its length; include/d64.h has the prototypes.
#![tactic(auto)]

ghost use Rattle.std.specs.Prelude.{[]};
ghost use Rattle.d64spec.specs.Call.{check, format, read, store, scratch};
ghost use Rattle.d64spec.specs.Host.{host_call_in};
ghost use Rattle.d64.specs.HostForms.{host_tell_in, host_listing_in};
ghost use Rattle.d64.specs.HostCalls.{HostServed};

// Checks the image: the first fault of steps 1 to 4 with its place, or 0. It reports length 0 and 0 sectors.
#[unsafe(no_mangle)]
pub extern "C" fn d64_check(layout: u32, image: &[u8], answer: &mut [u8]) -> u32
    ensures { HostServed (host_call_in layout image.now answer.old check) result image.now [] answer.new }
{
    d64::d64_check(layout, image, answer)
}

// Reads the file of this name to the start of the output, the rest of it as it was; reports its length and the sectors visited.
// Refused with 1, 9, 2 to 8, 13 or 16, in this order; a refusal leaves the output and reports 0 and 0.
#[unsafe(no_mangle)]
pub extern "C" fn d64_read(
    layout: u32,
    image: &[u8],
    name: &[u8],
    out: &mut [u8],
    answer: &mut [u8],
) -> u32
    ensures { HostServed (host_call_in layout image.now answer.old (read name.now out.old))
        result image.now out.new answer.new }
{
    d64::d64_read(layout, image, name, out, answer)
}

// Tells about the file at a position, counted from 0 among the occupied slots: 25 bytes at the start of the entry, the rest of it as it
// was. Refused with 1, 2 to 8, 13 or, for an entry of fewer than 25 bytes, 16, in this order; a refusal leaves the entry.
#[unsafe(no_mangle)]
pub extern "C" fn d64_tell(
    layout: u32,
    image: &[u8],
    position: usize,
    entry: &mut [u8],
    answer: &mut [u8],
) -> u32
    ensures { HostServed (host_tell_in layout image.now answer.old position entry.old)
        result image.now entry.new answer.new }
{
    d64::d64_tell(layout, image, position, entry, answer)
}

// Lists the 4,864 bytes of track 18 into the text, from its start, the rest of it as it was; reports the length of the listing.
// Refused with 1, 2 to 6 or, for a text that is too short, 16; a refusal leaves the text and reports 0.
#[unsafe(no_mangle)]
pub extern "C" fn d64_listing(
    layout: u32,
    track18: &[u8],
    text: &mut [u8],
    answer: &mut [u8],
) -> u32
    ensures { HostServed (host_listing_in layout track18.now answer.old text.old)
        result track18.now text.new answer.new }
{
    d64::d64_listing(layout, track18, text, answer)
}

// Formats the image: an empty disk of this name and these two id bytes, every other byte of it 0. It reports length 0 and 0 sectors.
// Refused with 1 or 9, in this order; a refusal leaves the image and reports 0 and 0.
#[unsafe(no_mangle)]
pub extern "C" fn d64_format(
    layout: u32,
    image: &mut [u8],
    name: &[u8],
    id1: u8,
    id2: u8,
    answer: &mut [u8],
) -> u32
    ensures { HostServed (host_call_in layout image.old answer.old (format name.now id1 id2))
        result image.new [] answer.new }
{
    d64::d64_format(layout, image, name, id1, id2, answer)
}

// Stores a new file of this name, this kind and these bytes; reports its length and its number of sectors.
// Refused with 1, 9, 10, 2 to 8, 11, 12, 14 or 15, in this order; a refusal leaves the image and reports 0 and 0.
#[unsafe(no_mangle)]
pub extern "C" fn d64_store(
    layout: u32,
    image: &mut [u8],
    name: &[u8],
    kind: u32,
    content: &[u8],
    answer: &mut [u8],
) -> u32
    ensures { HostServed (host_call_in layout image.old answer.old (store name.now kind content.now))
        result image.new [] answer.new }
{
    d64::d64_store(layout, image, name, kind, content, answer)
}

// Scratches the file of this name: its sectors and its slot zeroed, its sectors free; reports its length and its number of sectors.
// Refused with 1, 9, 2 to 8, 11 or 13, in this order; a refusal leaves the image and reports 0 and 0.
#[unsafe(no_mangle)]
pub extern "C" fn d64_scratch(layout: u32, image: &mut [u8], name: &[u8], answer: &mut [u8]) -> u32
    ensures { HostServed (host_call_in layout image.old answer.old (scratch name.now))
        result image.new [] answer.new }
{
    d64::d64_scratch(layout, image, name, answer)
}
