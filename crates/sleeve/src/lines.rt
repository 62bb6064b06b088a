// Frames in uppercase hexadecimal without blanks, one to a line (01, Sleeve listing).
ghost use Rattle.std.specs.Prelude.{◌≡◌, ◌+◌, ◌*◌, ◌≤◌, ◌++◌, length};
ghost use Rattle.d64spec.specs.Listing.{digit, line};
ghost use Rattle.sleeve.specs.Texts.{digits_of};

// An uppercase hexadecimal digit.
#[tactic(auto, unfolding(d64spec::specs::Listing::digit))]
pub(crate) fn digit(n: u8) -> u8
    requires { n ≤ 200 }
    ensures { result ≡ digit n }
{
    if n < 10 { b'0' + n } else { b'A' + (n - 10) }
}

// Fills the text with the digits of the bytes, two for each.
fn write_digits(bytes: &[u8], text: &mut [u8])
    requires { length text.old ≡ 2 * length bytes.now }
    ensures { text.new ≡ digits_of bytes.now }
{
    // not by `chunks_exact_mut(2)`: of the parts that a loop lends out no contract of std tells what they hold afterwards
    for (i, byte) in bytes.iter().enumerate() {
        text[2 * i] = digit(byte / 16);
        text[2 * i + 1] = digit(byte % 16);
    }
}

// Fills the text with the line of a frame that has two parts.
pub(crate) fn write_line(first: &[u8], second: &[u8], text: &mut [u8])
    requires { length text.old ≡ 2 * (length first.now + length second.now) + 1 }
    ensures { text.new ≡ line (first.now ++ second.now) }
{
    let middle = 2 * first.len();
    let end = text.len() - 1;
    write_digits(first, &mut text[..middle]);
    write_digits(second, &mut text[middle..end]);
    text[end] = b'\n';
}
