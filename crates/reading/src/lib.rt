// Read and tell (01, What the calls do): the whole check, then the file's bytes, or what its directory entry says of it.
// They take any bytes and change none of the image.
#![tactic(auto)]

mod copying;

ghost use Rattle.std.specs.Prelude.{◌≡◌, true, ◌+◌, ◌-◌, ◌*◌};
ghost use Rattle.geometry.specs.Layout.{geometry_of};
ghost use Rattle.d64spec.specs.Read.{call_tell, tell_reply};
ghost use Rattle.d64spec.specs.Reply.{reply, valid_name_argument};
ghost use Rattle.d64spec.specs.Call.{read, perform};
ghost use Rattle.answers.specs.Faults.{result_of, reply_of};
ghost use Rattle.reading.specs.FileSlots.{first_of, FileEntry, CheckedFiles};
ghost use Rattle.reading.specs.Replies.{read_from, told_of, information_of, tell_reply_of};

use answers::{Done, Fault};
use diskcheck::Checked;
use geometry::{Address, Layout};

// What tell gives of a file: its type byte, its 16 name bytes, its first sector, its count of sectors, its length in bytes.
#[derive(Clone, Copy, Debug, PartialEq, Eq)]
pub struct FileInformation {
    pub type_byte: u8,
    pub name: [u8; 16],
    pub track: u8,
    pub sector: u8,
    pub count: u16,
    pub length: u32,
}

// What a tell answers: its verdict and the information, all zero if refused (01, Tell).
#[derive(Clone, Copy, Debug, PartialEq, Eq)]
pub struct Told {
    pub verdict: Result<(), Fault>,
    pub information: FileInformation,
}

// The zeros that stand in place of the information of a file that is not told.
const NOTHING: FileInformation = FileInformation {
    type_byte: 0,
    name: [0u8; 16],
    track: 0,
    sector: 0,
    count: 0,
    length: 0,
};

// The answer of a tell by its result.
impl From<Result<FileInformation, Fault>> for Told {
    ghost from_gives = { λ outcome told. tell_reply_of told ≡ tell_reply (result_of information_of outcome) };

    #[tactic(auto, using(crate::proofs::ReplyLaws::told))]
    fn from(outcome: Result<FileInformation, Fault>) -> Self {
        match outcome {
            Ok(information) => Told {
                verdict: Ok(()),
                information,
            },
            Err(fault) => Told {
                verdict: Err(fault),
                information: NOTHING,
            },
        }
    }
}

// The length of a file of `count` sectors that ends at byte `last` of its last sector: 254 bytes in each sector before that one, and those from
// byte 2 on in it (01, Chains). Any numbers are taken: it is 0 where they are too small for a file.
pub fn file_length(count: u16, last: u8) -> u32
    ensures { result ≡ 254 * count + last - 255 }
{
    (254 * count as u32 + last as u32).saturating_sub(255)
}

// Copies the file of an occupied slot of a checked image, which ends at byte `last` of its last sector, or refuses it with 16 where the output
// is too short.
fn read_slot(
    layout: Layout,
    img: &[u8],
    slot: &[u8],
    last: u8,
    out: &mut [u8],
) -> Result<Done, Fault>
    requires { FileEntry (geometry_of layout) img.now slot.now last }
    ensures { reply_of result img.now out.new
        ≡ reply img.now out.old (read_from (geometry_of layout) img.now out.old (first_of slot.now)) }
{
    // two bytes of the slot, read where they are needed: a function for them would have to know slots and addresses
    let first = Address {
        track: slot[1],
        sector: slot[2],
    };
    let length = file_length(entry::sector_count(slot), last);
    if out.len() < length as usize {
        return Err(Fault::WrongBuffer);
    }
    let sectors = copying::copy_chain(layout, img, first, out) as u16;
    Ok(Done { length, sectors })
}

// The same for the file of this name on a checked image; refused with 13 where no slot has it.
fn read_found(
    layout: Layout,
    img: &[u8],
    name: &[u8],
    checked: &Checked,
    out: &mut [u8],
) -> Result<Done, Fault>
    requires { CheckedFiles (geometry_of layout) img.now checked.now × (valid_name_argument name.now ≡ true) }
    ensures { reply_of result img.now out.new
        ≡ perform (geometry_of layout) img.now (read name.now out.old) }
{
    let track18 = sectors::track18(img);
    let Some(k) = finding::find_named(track18, &checked.sectors, name, 8 * checked.count) else {
        return Err(Fault::NotFound);
    };
    let slot = directory::slot_at(track18, &checked.sectors, k);
    read_slot(layout, img, slot, checked.ends[k], out)
}

// Reads the file of this name: its bytes at the start of the output, the rest of it as it was; its length and its chain's length.
// Refused with 1, 9, 2 to 8, 13 or 16, in this order; a refusal leaves the output as it was.
pub fn read_file(layout: Layout, img: &[u8], name: &[u8], out: &mut [u8]) -> Result<Done, Fault>
    ensures { reply_of result img.now out.new
        ≡ perform (geometry_of layout) img.now (read name.now out.old) }
{
    // size and name are asked alike in four calls, and what comes next differs: a store asks the kind, a format runs no check
    if img.len() != geometry::image_size(layout) {
        return Err(Fault::WrongSize);
    }
    if !names::valid_name_argument(name) {
        return Err(Fault::BadNameArgument);
    }
    let checked = diskcheck::check_image(layout, img)?;
    read_found(layout, img, name, &checked, out)
}

// What the slot of a file of a checked image says, and the file's length; the file ends at byte `last` of its last sector.
fn tell_slot(layout: Layout, img: &[u8], slot: &[u8], last: u8) -> FileInformation
    requires { FileEntry (geometry_of layout) img.now slot.now last }
    ensures { information_of result ≡ told_of (geometry_of layout) img.now slot.now }
{
    let count = entry::sector_count(slot);
    let mut name = [0u8; 16];
    name.copy_from_slice(&slot[3..19]);
    FileInformation {
        type_byte: slot[0],
        name,
        track: slot[1],
        sector: slot[2],
        count,
        length: file_length(count, last),
    }
}

// The same for the file at a position on a checked image; refused with 13 where there are not so many.
fn tell_found(
    layout: Layout,
    img: &[u8],
    position: usize,
    checked: &Checked,
) -> Result<FileInformation, Fault>
    requires { CheckedFiles (geometry_of layout) img.now checked.now }
    ensures { result_of information_of result ≡ call_tell (geometry_of layout) img.now position }
{
    let track18 = sectors::track18(img);
    let Some(k) = finding::find_placed(track18, &checked.sectors, position, 8 * checked.count)
    else {
        return Err(Fault::NotFound);
    };
    let slot = directory::slot_at(track18, &checked.sectors, k);
    Ok(tell_slot(layout, img, slot, checked.ends[k]))
}

// Tells about the file at a position, counted from 0 among the occupied slots. Refused with 1, 2 to 8 or 13, in this order.
pub fn tell_file(layout: Layout, img: &[u8], position: usize) -> Result<FileInformation, Fault>
    ensures { result_of information_of result ≡ call_tell (geometry_of layout) img.now position }
{
    let checked = diskcheck::check_image(layout, img)?;
    tell_found(layout, img, position, &checked)
}

// The same as an answer, for a caller that asks for the zeros of a refusal.
pub fn tell_answer(layout: Layout, img: &[u8], position: usize) -> Told
    ensures { tell_reply_of result ≡ tell_reply (call_tell (geometry_of layout) img.now position) }
{
    Told::from(tell_file(layout, img, position))
}
