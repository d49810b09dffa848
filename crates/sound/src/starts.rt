// Starting sets seen so far, as marks on their positions: a second one for a position is a fault. The
// contracts cite Reading.antt of `rules` and specs/Starts.antt.
ghost use Rattle.std.specs.Prelude.{◌≡◌, ◌+◌, ◌<◌, MatchOption, IfOk};
ghost use Rattle.rules.specs.Fault.{number_told};
ghost use Rattle.rules.specs.Reading.{seen_with, again_fault, rule_at};
ghost use Rattle.sound.specs.Starts.{started_by, StartThere};

use rules::fault::Fault;
use rules::field::Tag;
use sets::marks::Marks;

// The index of the position that the field at the start of the bytes gives a starting set; none where it
// gives none.
pub(crate) fn started(bytes: &[u8]) -> Option<usize>
    requires { StartThere bytes.now }
    ensures { MatchOption result (started_by (rule_at bytes.now) ≡ 0) (λ p. (p + 1 ≡ started_by (rule_at bytes.now)) × (p < 64)) }
{
    match Tag::from(bytes[0]) {
        Tag::Starting => Some(bytes[3] as usize - 1),
        Tag::Header | Tag::Clause | Tag::Equality | Tag::AtMost | Tag::Unknown => None,
    }
}

// The marks, with one on the position that the field gives a starting set; a second one for a position that
// is marked is a fault.
pub(crate) fn seen_with(bytes: &[u8], seen: Marks) -> Result<Marks, Fault>
    requires { StartThere bytes.now }
    ensures told { number_told result ≡ again_fault seen (rule_at bytes.now) }
    ensures marked { IfOk result (λ more. more ≡ seen_with (rule_at bytes.now) seen) }
{
    match started(bytes) {
        Some(index) if seen.has(index) => Err(Fault::SecondStart),
        Some(index) => Ok(seen.with(index)),
        None => Ok(seen),
    }
}
