// The walk along the directory's links, from 18/1 on (01, The directory).
ghost use Rattle.std.specs.Prelude.{◌≡◌, length};
ghost use Rattle.owners.specs.Masks.{owned_mask};
ghost use Rattle.directory.specs.Walks.{Walked};

use answers::{Fault, Place};
use links::Link;

// The sectors walked, in link order, with zeros after them, and the sectors of track 18 that have an owner then: bit s for sector s.
// No heap: the array has room for all, and the count beside it says how many there are. No `Directory` yet: which name is repeated is asked behind it.
#[derive(Drop)]
pub(crate) struct Walk {
    pub sectors: [u8; 18],
    pub count: usize,
    pub used: u32,
}

// The place of a link's fault: the sector of track 18 that holds the link, and no slot.
fn place_of(holder: u8) -> Place
    ensures { result ≡ record { track = 18; sector = holder; slot = 255 } }
{
    Place {
        track: 18,
        sector: holder,
        slot: 255,
    }
}

// Walks the directory from 18/1 on. Each sector gets the directory's number in a table of track 18's owners, and its bit among the used sectors; one
// that has an owner is refused.
pub(crate) fn walk_directory(track18: &[u8], own: &mut [u8; 19], marked: u32) -> Result<Walk, Fault>
    requires { (length track18.now ≡ 4864) × (marked ≡ owned_mask own.old 0 19) }
    ensures { Walked track18.now own.old result own.new }
{
    let mut sectors = [0u8; 18];
    let mut count = 0;
    let mut holder = 0;
    let mut next = 1;
    let mut used = marked;
    // no range and no iterator: each sector read says which is next, and whether there is one
    loop {
        let n = next as usize;
        if own[n] != 0 {
            return Err(Fault::AlreadyOwned(place_of(holder)));
        }
        // the directory's number: one byte for each sector, as the definition OwnerTable.owner_table has them
        own[n] = 2;
        used += 1 << next;
        sectors[count] = next;
        count += 1;
        holder = next;
        match links::directory_link(track18[256 * n], track18[256 * n + 1]) {
            Link::Ends => {
                return Ok(Walk {
                    sectors,
                    count,
                    used,
                });
            }
            Link::Bad => return Err(Fault::BadLink(place_of(holder))),
            Link::To(at) => next = at.sector,
        }
    }
}
