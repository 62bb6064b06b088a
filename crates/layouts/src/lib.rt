// The layout that a program's argument names by a digit (02, §8).
#![tactic(auto)]

ghost use Rattle.std.specs.Prelude.{◌≡◌};
ghost use Rattle.layouts.specs.Named.{named_by, layout_written};

use geometry::Layout;

// The layout that an argument names: the one digit 0, 1 or 2.
#[tactic(auto, using(crate::proofs::WrittenLaws::written))]
pub fn layout_written(argument: &[u8]) -> Option<Layout>
    ensures { named_by result ≡ layout_written argument.now }
{
    let [digit] = argument else {
        return None;
    };
    let number = digit.checked_sub(b'0')?;
    Layout::try_from(u32::from(number)).ok()
}
