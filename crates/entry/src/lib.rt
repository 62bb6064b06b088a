// One slot of the directory: where its bytes are, its type byte, its count (01, The directory).
// A slot is lent as its bytes 02 to 1F, so byte i of document 01 is at i - 2; a byte past the end of a short slot reads as 0.
// Every function takes any slice: what it gives is the definition's value there.
// Not here: a slot's name (crate `names`), and its first link, which the walks of a chain read as two bytes.
#![tactic(auto)]

ghost use Rattle.std.specs.Prelude.{◌≡◌, ◌*◌, drop};
ghost use Rattle.d64spec.specs.Lists.{part};
ghost use Rattle.d64spec.specs.Directory.{entry_byte, is_empty, valid_type};
ghost use Rattle.entry.specs.Entry.{Counted, number_of_kind, KindNumbered};

// Bytes 02 to 1F of slot j of a directory sector: nothing where the sector ends before.
pub fn slot(sector: &[u8], j: usize) -> &[u8]
    ensures { result.now ≡ part 0x02 0x1F (drop (32 * j) sector.now) }
{
    // asked by a division, since 32 * j may not fit
    if sector.len() / 32 < j {
        return &[];
    }
    parts::clipped(sector, 32 * j + 2, 30)
}

// Byte 02 of a slot: its kind and its flags, or 0 where it is empty.
pub fn type_byte(slot: &[u8]) -> u8
    ensures { result ≡ entry_byte slot.now 0x02 }
{
    parts::byte_at(slot, 0)
}

// Whether a slot is empty: byte 02 is 0.
pub fn is_empty(slot: &[u8]) -> bool
    ensures { result ≡ is_empty slot.now }
{
    type_byte(slot) == 0
}

// Whether a type byte is one that document 01 carries: closed, and SEQ, PRG or USR, locked or not.
#[tactic(auto, unfolding(d64spec::specs::Directory::valid_type))]
pub fn valid_type(b: u8) -> bool
    ensures { result ≡ valid_type b }
{
    b / 128 % 2 == 1 && b / 16 % 4 == 0 && matches!(b % 16, 1..=3)
}

// A slot's number of sectors, bytes 1E and 1F, low byte first.
pub fn sector_count(slot: &[u8]) -> u16
    ensures { Counted slot.now result }
{
    u16::from_le_bytes([parts::byte_at(slot, 28), parts::byte_at(slot, 29)])
}

// A kind that a store takes (02, §12). USR files are carried where they are on a disk, and no store makes one.
#[derive(Clone, Copy, Debug, PartialEq, Eq)]
pub enum Kind {
    Seq,
    Prg,
}

// A number of no kind that a store takes.
#[derive(Clone, Copy, Debug, PartialEq, Eq)]
pub struct UnknownKind;

impl TryFrom<u32> for Kind {
    type Error = UnknownKind;

    ghost try_from_gives = { KindNumbered };

    // The kind with this number: 1 SEQ or 2 PRG (02, §12).
    #[tactic(auto, unfolding(d64spec::specs::Reply::storable_kind))]
    fn try_from(number: u32) -> Result<Self, UnknownKind> {
        match number {
            1 => Ok(Kind::Seq),
            2 => Ok(Kind::Prg),
            _ => Err(UnknownKind),
        }
    }
}

impl Kind {
    // The number that a file of this kind has in its type byte (01, The directory).
    pub fn number(self) -> u8
        ensures { result ≡ number_of_kind self }
    {
        match self {
            Kind::Seq => 1,
            Kind::Prg => 2,
        }
    }
}
