// A chain of a checked image, walked for its data (01, Chains). Each sector is lent on as a part of the image.
ghost use Rattle.std.specs.Prelude.{◌≡◌, take, drop};
ghost use Rattle.d64spec.specs.Lists.{splice};
ghost use Rattle.geometry.specs.Layout.{geometry_of, address_of};
ghost use Rattle.reading.specs.ChainReads.{CopyFits, DataFits, ChainCopied};

use geometry::{Address, Layout};

// Copies `size` data bytes of a sector, those behind its link, to the output, from index `at` on.
fn copy_data(sector: &[u8], size: usize, out: &mut [u8], at: usize)
    requires { DataFits sector.now out.old size at }
    ensures { out.new ≡ splice out.old at (take size (drop 2 sector.now)) }
{
    out[at..at + size].copy_from_slice(&sector[2..2 + size]);
}

// Copies the data of the chain that starts at `first` to the start of the output, which has room for them. Gives how many sectors it visited.
pub(crate) fn copy_chain(layout: Layout, img: &[u8], first: Address, out: &mut [u8]) -> usize
    requires { CopyFits (geometry_of layout) img.now out.old (address_of first) }
    ensures { ChainCopied (geometry_of layout) img.now out.old (address_of first) result out.new }
{
    let mut at = first;
    let mut sectors: usize = 0;
    // no plainer: where the chain ends is met on the way, and its sectors are counted for the report
    loop {
        let n = geometry::number_of(at);
        let part = &img[256 * n..256 * n + 256];
        let track = part[0];
        let sector = part[1];
        let copied = 254 * sectors;
        sectors += 1;
        if track == 0 {
            copy_data(part, sector as usize - 1, out, copied);
            return sectors;
        }
        copy_data(part, 254, out, copied);
        at = Address { track, sector };
    }
}
