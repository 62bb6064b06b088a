// A sector of an image, lent on as a part of it, read and written (01, Tracks and sectors): for any image and any number.
// A sector that the image does not have is empty, one that the image cuts off is shorter; bytes are written only where a whole sector has them.
// `n` is held to the sectors that lie whole in the image before it is multiplied, so that nothing wraps.
#![tactic(auto)]

ghost use Rattle.std.specs.Prelude.{◌≡◌, take, drop};
ghost use Rattle.d64spec.specs.Format.{empty_directory_sector};
ghost use Rattle.sectors.specs.Sectors.{IsSector, with_sector, overwritten_in};

// The bytes of sector n, as a part of the image.
pub fn sector(img: &[u8], n: usize) -> &[u8]
    ensures { IsSector img.now n result.now }
{
    // not by `clipped` twice: three cases in one place, each a slice, are as plain
    let whole = img.len() / 256;
    if whole < n {
        return &img[0..0];
    }
    let start = 256 * n;
    if n == whole {
        return &img[start..];
    }
    &img[start..start + 256]
}

// The bytes of track 18: fewer where the image ends before.
pub fn track18(img: &[u8]) -> &[u8]
    ensures { result.now ≡ take 4864 (drop 91392 img.now) }
{
    parts::clipped(img, 91392, 4864)
}

// Writes 256 bytes over sector n. With another length, or a sector that is not whole in the image, nothing is written.
pub fn write_sector(img: &mut [u8], n: usize, content: &[u8])
    ensures { img.new ≡ with_sector img.old n content.now }
{
    if n < img.len() / 256 && content.len() == 256 {
        let from = 256 * n;
        img[from..from + 256].copy_from_slice(content);
    }
}

// Writes the content over as many bytes of sector n, from its byte `at` on. Where they do not all lie in a whole sector of the image, nothing is
// written.
pub fn overwrite_in(img: &mut [u8], n: usize, at: usize, content: &[u8])
    ensures { img.new ≡ overwritten_in img.old n at content.now }
{
    if img.len() / 256 <= n {
        return;
    }
    let from = 256 * n;
    parts::overwrite(&mut img[from..from + 256], at, content);
}

// An empty directory sector: 00 FF and zeros.
pub fn empty_directory_sector() -> [u8; 256]
    ensures { result ≡ empty_directory_sector }
{
    let mut empty = [0u8; 256];
    empty[1] = 0xFF;
    empty
}
