// Room for a file: the sectors that its data need, and where its entry goes (01, Store).
ghost use Rattle.std.specs.Prelude.{◌≡◌, ◌≤◌};
ghost use Rattle.geometry.specs.Layout.{geometry_of};
ghost use Rattle.storing.specs.Decisions.{Needed, room_for, RoomAsked, RoomIs};

use diskcheck::Checked;
use geometry::Layout;

// Where the entry goes: slot `index` of 18/sector, which is new to the directory where it is `grown`. An enum would be no plainer: in both cases there are
// a sector and a slot, and the entry is written alike.
#[derive(Clone, Copy)]
pub(crate) struct EntryPlace {
    pub sector: u8,
    pub index: u8,
    pub grown: bool,
}

// The sectors that so many bytes need: 1 for none, else 254 bytes in each.
pub(crate) fn sectors_needed(length: usize) -> usize
    requires { length ≤ 190246 }
    ensures { Needed length result }
{
    length.div_ceil(254).max(1)
}

// The first empty one of the slots 0 to end - 1, or else the first slot of the lowest free sector of track 18; none where the directory is full.
pub(crate) fn entry_room(
    layout: Layout,
    track18: &[u8],
    sectors: &[u8; 18],
    end: usize,
    map: &[[u8; 4]; 40],
) -> Option<EntryPlace>
    requires { end ≤ 144 }
    ensures { result ≡ room_for (geometry_of layout) track18.now sectors.now end map.now }
{
    if let Some(k) = finding::find_empty(track18, sectors, end) {
        return Some(EntryPlace {
            sector: sectors[k / 8],
            index: (k % 8) as u8,
            grown: false,
        });
    }
    let place = placement::place_directory(layout, map)?;
    Some(EntryPlace {
        sector: place.sector,
        index: 0,
        grown: true,
    })
}

// Room for the entry on a checked image; none where the directory is full.
pub(crate) fn room_in(
    layout: Layout,
    img: &[u8],
    checked: &Checked,
    map: &[[u8; 4]; 40],
) -> Option<EntryPlace>
    requires { RoomAsked (geometry_of layout) img.now checked.now.sectors checked.now.count map.now }
    ensures { RoomIs (geometry_of layout) img.now result }
{
    entry_room(
        layout,
        sectors::track18(img),
        &checked.sectors,
        8 * checked.count,
        map,
    )
}
