// One link of the directory, decoded from its two bytes (01, The directory): it ends the chain, goes on at a sector of track 18, or is bad.
// It says the same in every layout whose track 18 has 19 sectors. Not here: a file's links; the loops along a chain keep the two bytes. Their laws:
// proofs/LinkLaws.
#![tactic(auto)]

ghost use Rattle.std.specs.Prelude.{◌≡◌};
ghost use Rattle.d64spec.specs.Geometry.{Geometry, sectors_on};
ghost use Rattle.d64spec.specs.Chain.{decode_directory_link};
ghost use Rattle.links.specs.Links.{link_of};

use geometry::Address;

// What a link says.
#[derive(Clone, Copy, Debug, PartialEq, Eq)]
pub enum Link {
    Ends,
    To(Address),
    Bad,
}

// The link in a directory sector: track 0 ends the directory, whatever the second byte is; any other must name 18/1 to 18/18.
#[tactic(auto, using(crate::proofs::LinkLaws::decoded))]
pub fn directory_link(track: u8, sector: u8) -> Link
    ensures { (g : Geometry) → sectors_on g 18 ≡ 19 → link_of result ≡ decode_directory_link g track sector }
{
    match (track, sector) {
        (0, _) => Link::Ends,
        // 18/0 is the map's sector, and no directory sector
        (18, 1..=18) => Link::To(Address { track, sector }),
        _ => Link::Bad,
    }
}
