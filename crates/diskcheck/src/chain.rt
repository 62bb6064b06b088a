// A file's chain, claimed sector by sector in the owner table, and in the mask of each track (01, Chains; Order of the check, 3; 02, §4).
ghost use Rattle.std.specs.Prelude.{◌≡◌};
ghost use Rattle.answers.specs.Faults.{sector_of};
ghost use Rattle.geometry.specs.Layout.{geometry_of};
ghost use Rattle.owners.specs.Masks.{Masks};
ghost use Rattle.owners.specs.OwnerTable.{file_owner};
ghost use Rattle.diskcheck.specs.Chains.{claim_of, claimed, chain_walk, held_by, claim_off, with_mask, MaskRoom, Ready};

use answers::{Fault, Place};
use geometry::{Address, Layout};

// What a claimed chain has: the number of its sectors, and that of the last byte used in the last of them.
#[derive(Clone, Copy)]
pub(crate) struct Claim {
    pub(crate) count: usize,
    pub(crate) end: u8,
}

// The place of a link's fault: the sector that holds the link, and the slot of the file. The directory's walk has one of its own: it knows the track alone.
fn place_of(holder: Address, slot: u8) -> Place
    ensures { result ≡ held_by holder slot }
{
    Place {
        track: holder.track,
        sector: holder.sector,
        slot,
    }
}

// What a link off the disk says, held by `holder` after `count` sectors of a chain: its end, where one of them holds it and it is 00 and then not 00.
fn claim_off(track: u8, sector: u8, count: usize, holder: Address, slot: u8) -> Result<Claim, Fault>
    ensures { result ≡ claim_off track sector count holder slot }
{
    if count == 0 || track != 0 || sector == 0 {
        return Err(Fault::BadLink(place_of(holder, slot)));
    }
    Ok(Claim { count, end: sector })
}

// Adds the bits of a track's sectors to its mask; tracks 1 to 40 have one, also where the layout has no such track.
fn add_mask(used: &mut [u32; 40], track: u8, mask: u32)
    requires { MaskRoom used.old track mask }
    ensures { used.new ≡ with_mask used.old track mask }
{
    if 1 <= track && track <= 40 {
        used[track as usize - 1] += mask;
    }
}

// Claims the chain of the file in the slot at a place, which starts at `first`: each of its sectors gets the slot's owner, and its bit in its track's
// mask. While a chain stays on a track, the track's sectors and first number are at hand, so that the next sector's number waits for no table, and its
// bits are gathered in `mask`. The end of a chain is found among the links that are off the disk.
pub(crate) fn claim_chain(
    layout: Layout,
    img: &[u8],
    own: &mut [u8],
    used: &mut [u32; 40],
    at: Place,
    first: Address,
) -> Result<Claim, Fault>
    requires { Ready (geometry_of layout) img.now own.old used.old at.slot }
    ensures claim { claim_of result own.new
        ≡ claimed (geometry_of layout) img.now (file_owner at.slot) own.old
        (chain_walk (geometry_of layout) img.now own.old (sector_of at) at.slot first.track first.sector) }
    ensures masks { Masks (geometry_of layout) own.new used.new }
{
    // the file's number: one byte for each sector, as the definition OwnerTable.owner_table has them
    let id = at.slot + 3;
    let mut holder = Address {
        track: at.track,
        sector: at.sector,
    };
    let mut on = geometry::track_on(layout, first.track);
    let mut sector = first.sector;
    let mut count: usize = 0;
    let mut mask: u32 = 0;
    // no range and no iterator: each sector read says which is next, and whether there is one
    loop {
        if on.sectors <= sector {
            add_mask(used, on.number, mask);
            return claim_off(on.number, sector, count, holder, at.slot);
        }
        let n = on.first as usize + sector as usize;
        if own[n] != 0 {
            add_mask(used, on.number, mask);
            return Err(Fault::AlreadyOwned(place_of(holder, at.slot)));
        }
        own[n] = id;
        mask += 1 << sector;
        count += 1;
        holder = Address {
            track: on.number,
            sector,
        };
        let part = &img[256 * n..256 * n + 256];
        let track = part[0];
        sector = part[1];
        if track != on.number {
            add_mask(used, on.number, mask);
            mask = 0;
            on = geometry::track_on(layout, track);
        }
    }
}
