// Names: the field of a directory slot that holds one, and the name that a call asks for (01, The directory; Answer numbers, 9).
// A slot is lent as its bytes 02 to 1F, so byte i of document 01 is at i - 2.
// Every public function takes any slice: what it gives is the definition's value there.
#![tactic(auto)]

ghost use Rattle.std.specs.Prelude.{◌≡◌, ◌≤◌, length, take};
ghost use Rattle.d64spec.specs.Directory.{name_field, padded, valid_name};
ghost use Rattle.d64spec.specs.Reply.{valid_name_argument};
ghost use Rattle.names.specs.Names.{padded_once, RestFits};

// What a name shorter than 16 bytes is filled up with.
const PADDING: [u8; 16] = [0xA0; 16];

// Whether no other byte stands behind a $A0 in a slot's name, where none does from byte `end` of the name on: two neighbours are asked at a time.
fn neighbours_fit(slot: &[u8], end: usize) -> bool
    requires { RestFits slot.now end }
    ensures { result ≡ padded_once (name_field slot.now) }
{
    // not by `windows(2)`: a loop of indices, whose bound is handed in, is as short
    for i in 0..end {
        if slot[i + 3] == 0xA0 && slot[i + 4] != 0xA0 {
            return false;
        }
    }
    true
}

// Whether no other byte stands behind a $A0 in a slot's name. Where its last eight bytes are $A0, as in most names, only seven pairs are left to ask.
fn padded_once(slot: &[u8]) -> bool
    requires { 19 ≤ length slot.now }
    ensures { result ≡ padded_once (name_field slot.now) }
{
    if parts::four_at(slot, 11) == 0xA0A0A0A0 && parts::four_at(slot, 15) == 0xA0A0A0A0 {
        return neighbours_fit(slot, 7);
    }
    neighbours_fit(slot, 15)
}

// Whether a slot's name keeps the rule: 1 to 16 bytes that are not $A0, then only $A0.
pub fn valid_name(slot: &[u8]) -> bool
    ensures { result ≡ valid_name slot.now }
{
    if slot.len() < 19 || slot[3] == 0xA0 {
        return false;
    }
    padded_once(slot)
}

// Whether a call takes this name: 1 to 16 bytes, none of them $A0.
#[tactic(auto, unfolding(d64spec::specs::Reply::valid_name_argument))]
pub fn valid_name_argument(name: &[u8]) -> bool
    ensures { result ≡ valid_name_argument name.now }
{
    if name.is_empty() || 16 < name.len() {
        return false;
    }
    !name.contains(&0xA0)
}

// The name filled up to 16 bytes with $A0; of a longer one its first 16 bytes.
pub fn padded_name(name: &[u8]) -> [u8; 16]
    ensures { result ≡ take 16 (padded name.now) }
{
    let mut field = PADDING;
    let part = parts::clipped(name, 0, 16);
    field[..part.len()].copy_from_slice(part);
    field
}
