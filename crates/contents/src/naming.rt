// The positions that an at-most field names: each may be named once. The contracts cite Reading.antt and
// Contents.antt of `rules`.
ghost use Rattle.std.specs.Prelude.{◌≡◌, ◌≤◌, length};
ghost use Rattle.rules.specs.Contents.{PositionsFit};
ghost use Rattle.rules.specs.Fault.{number_told};
ghost use Rattle.rules.specs.Reading.{rule_of, rule_fault, twice_fault};

use super::content::{positions_fault, set_fault};
use rules::fault::Fault;
use rules::field::{Tag, set_at};
use sets::marks::Marks;

// Whether each position that bytes name is named once. One pass, with marks on the positions that were
// named.
pub(crate) fn twice_fault(positions: &[u8]) -> Result<(), Fault>
    requires { PositionsFit 64 positions.now }
    ensures { number_told result ≡ twice_fault positions.now }
{
    let mut seen = Marks::none();
    for &position in positions {
        let index = position as usize - 1;
        if seen.has(index) {
            return Err(Fault::NamedTwice);
        }
        seen = seen.with(index);
    }
    Ok(())
}

// The first fault of an at-most field's content: its set, its positions, and last that one of them is named
// twice. Any count will do.
pub(crate) fn at_most_fault(content: &[u8], v: u32, n: u32) -> Result<(), Fault>
    requires { (5 ≤ length content.now) × (v ≤ 64) }
    ensures { number_told result ≡ rule_fault v n (rule_of Tag.AtMost (length content.now) content.now) }
{
    let positions = &content[5..];
    set_fault(n, set_at(content, 1))?;
    positions_fault(positions, v)?;
    twice_fault(positions)
}
