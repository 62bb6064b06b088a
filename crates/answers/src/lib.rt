// Why a call is refused, document 01's number and place of each refusal, and the nine bytes that the host sees (01, Answer numbers; Host calls).
// One variant for each row of document 01's table; the numbers are given once, where an answer is made from a fault.
#![tactic(auto)]

ghost use Rattle.std.specs.Prelude.{◌≡◌};
ghost use Rattle.d64spec.specs.Answers.{answer_of};
ghost use Rattle.answers.specs.Faults.{fault_of, meant, called_answer, block_of, Filled, Given};

// The sector that holds a fault, and the slot being checked: 255 where it is none's, document 01's own number, which the host sees (C interface).
#[derive(Clone, Copy, Debug, PartialEq, Eq)]
pub struct Place {
    pub track: u8,
    pub sector: u8,
    pub slot: u8,
}

// The rows of document 01's table, each with what its place names.
#[derive(Clone, Copy, Debug, PartialEq, Eq)]
pub enum Fault {
    WrongSize,
    BadLink(Place),
    AlreadyOwned(Place),
    BadType(Place),
    BadName(Place),
    DuplicateName(Place),
    WrongCount(Place),
    WrongMapEntry { track: u8, sector: u8 },
    BadNameArgument,
    BadKindArgument,
    WriteForbidden,
    NameExists,
    NotFound,
    DirectoryFull,
    DiskFull,
    WrongBuffer,
    UnknownLayout,
}

// An answer number with its place: track, sector, slot. Number 0 is "done".
#[derive(Clone, Copy, Debug, PartialEq, Eq)]
pub struct Answer {
    pub number: u8,
    pub track: u8,
    pub sector: u8,
    pub slot: u8,
}

// What a call that was done reports to the host: a length in bytes and a number of sectors. Most have none to tell: 0 and 0.
#[derive(Clone, Copy, Debug, PartialEq, Eq, Default)]
pub struct Done {
    pub length: u32,
    pub sectors: u16,
}

// An answer without a place.
fn unplaced(number: u8) -> Answer
    ensures { result ≡ record { number = number; track = 0; sector = 0; slot = 255 } }
{
    Answer {
        number,
        track: 0,
        sector: 0,
        slot: 255,
    }
}

// An answer that names a sector and a slot.
fn placed(number: u8, at: Place) -> Answer
    ensures { result ≡ record { number = number; track = at.track; sector = at.sector; slot = at.slot } }
{
    Answer {
        number,
        track: at.track,
        sector: at.sector,
        slot: at.slot,
    }
}

// The answer of a fault: document 01's number, and the fault's place.
impl From<Fault> for Answer {
    ghost from_gives = { λ fault answer. meant answer ≡ answer_of (fault_of fault) };

    #[tactic(auto, unfolding(crate::specs::Faults::fault_of))]
    fn from(fault: Fault) -> Self {
        match fault {
            Fault::WrongSize => unplaced(1),
            Fault::BadLink(at) => placed(2, at),
            Fault::AlreadyOwned(at) => placed(3, at),
            Fault::BadType(at) => placed(4, at),
            Fault::BadName(at) => placed(5, at),
            Fault::DuplicateName(at) => placed(6, at),
            Fault::WrongCount(at) => placed(7, at),
            Fault::WrongMapEntry { track, sector } => placed(
                8,
                Place {
                    track,
                    sector,
                    slot: 255,
                },
            ),
            Fault::BadNameArgument => unplaced(9),
            Fault::BadKindArgument => unplaced(10),
            Fault::WriteForbidden => unplaced(11),
            Fault::NameExists => unplaced(12),
            Fault::NotFound => unplaced(13),
            Fault::DirectoryFull => unplaced(14),
            Fault::DiskFull => unplaced(15),
            Fault::WrongBuffer => unplaced(16),
            Fault::UnknownLayout => unplaced(17),
        }
    }
}

// The answer to a call: 0 where it was done.
impl From<Result<Done, Fault>> for Answer {
    ghost from_gives = { λ outcome answer. meant answer ≡ called_answer outcome };

    #[tactic(auto, unfolding(crate::specs::Faults::called_answer))]
    fn from(outcome: Result<Done, Fault>) -> Self {
        match outcome {
            Ok(_) => unplaced(0),
            Err(fault) => Answer::from(fault),
        }
    }
}

// The nine bytes: track, sector, slot, length in four bytes, sectors in two, low byte first.
fn block_bytes(answer: Answer, done: Done) -> [u8; 9]
    ensures { result ≡ block_of (meant answer) done.length done.sectors }
{
    let [a, b, c, d] = done.length.to_le_bytes();
    let [e, f] = done.sectors.to_le_bytes();
    [answer.track, answer.sector, answer.slot, a, b, c, d, e, f]
}

// Fills the host's answer block with any answer and any report, and returns the answer's number. A block that is not nine bytes is left as it is,
// and 16 returned.
pub fn fill_block(answer: Answer, done: Done, block: &mut [u8]) -> u32
    ensures { Filled (meant answer) done block.old result block.new }
{
    // 9 and 16 stand in d64 too, which asks them before it calls (C interface)
    if block.len() != 9 {
        return 16;
    }
    block.copy_from_slice(&block_bytes(answer, done));
    answer.number as u32
}

// The same for what a call gives: a refusal reports 0 and 0.
pub fn give_answer(outcome: Result<Done, Fault>, block: &mut [u8]) -> u32
    ensures { Given outcome block.old result block.new }
{
    let answer = Answer::from(outcome);
    let done = outcome.unwrap_or(Done {
        length: 0,
        sectors: 0,
    });
    fill_block(answer, done, block)
}
