// The first fault of a field's content: its positions and its sets, from left to right. The contracts
// cite Reading.antt of `rules` and specs/Promise.antt.
ghost use Rattle.std.specs.Prelude.{◌≡◌, true, ◌≤◌, length};
ghost use Rattle.rules.specs.Each.{atoms_in};
ghost use Rattle.rules.specs.Fault.{number_told};
ghost use Rattle.rules.specs.Reading.{rule_of, length_fits, position_fault, set_fault, atom_fault, atoms_fault, positions_fault, empty_fault, rule_fault};
ghost use Rattle.contents.specs.Promise.{OneTo, LengthFits, ContentFault};

use super::naming::at_most_fault;
use rules::atoms::atoms;
use rules::fault::Fault;
use rules::field::{Atom, Tag, atom_at, set_at};
use sets::Room;

// Whether a number is 1 to high.
pub fn within(high: u32, x: u32) -> bool
    ensures { OneTo high x result }
{
    (1..=high).contains(&x)
}

// Whether a position is 1 to v.
pub(crate) fn position_fault(v: u32, position: u32) -> Result<(), Fault>
    ensures { number_told result ≡ position_fault v position }
{
    if within(v, position) {
        Ok(())
    } else {
        Err(Fault::WrongPosition)
    }
}

// Whether a set has no value above n.
pub(crate) fn set_fault(n: u32, set: Room) -> Result<(), Fault>
    ensures { number_told result ≡ set_fault n set }
{
    if set.inside(Room::full(n)) {
        Ok(())
    } else {
        Err(Fault::WrongSet)
    }
}

// The first fault of an atom, its position before its set.
pub(crate) fn atom_fault(v: u32, n: u32, atom: Atom) -> Result<(), Fault>
    ensures { number_told result ≡ atom_fault v n atom }
{
    position_fault(v, atom.position)?;
    set_fault(n, atom.set)
}

// The first fault of the atoms of a content.
pub(crate) fn atoms_fault(content: &[u8], v: u32, n: u32) -> Result<(), Fault>
    ensures { number_told result ≡ atoms_fault v n (atoms_in content.now) }
{
    for atom in atoms(content) {
        atom_fault(v, n, atom)?;
    }
    Ok(())
}

// The first fault of the positions that bytes name.
pub(crate) fn positions_fault(positions: &[u8], v: u32) -> Result<(), Fault>
    ensures { number_told result ≡ positions_fault v positions.now }
{
    for &position in positions {
        position_fault(v, u32::from(position))?;
    }
    Ok(())
}

// The first fault of an equality's content, its set before its positions.
pub(crate) fn equality_fault(content: &[u8], v: u32, n: u32) -> Result<(), Fault>
    requires { 4 ≤ length content.now }
    ensures { number_told result ≡ rule_fault v n (rule_of Tag.Equality (length content.now) content.now) }
{
    set_fault(n, set_at(content, 0))?;
    positions_fault(&content[4..], v)
}

// Whether a starting set has a value.
pub(crate) fn empty_fault(set: Room) -> Result<(), Fault>
    ensures { number_told result ≡ empty_fault set }
{
    if set.is_empty() {
        Err(Fault::EmptyStart)
    } else {
        Ok(())
    }
}

// The first fault of a starting set's content: its position, its set, and last that it has no value.
pub(crate) fn starting_fault(content: &[u8], v: u32, n: u32) -> Result<(), Fault>
    requires { 5 ≤ length content.now }
    ensures { number_told result ≡ rule_fault v n (rule_of Tag.Starting (length content.now) content.now) }
{
    let atom = atom_at(content, 0);
    let set = atom.set;
    atom_fault(v, n, atom)?;
    empty_fault(set)
}

// Whether a field of a kind may have so many bytes of content.
#[tactic(auto, unfolding(rules::specs::Reading::length_fits))]
pub fn length_fits(kind: Tag, len: usize) -> bool
    ensures { LengthFits kind len result }
{
    match kind {
        Tag::Header => len == 2,
        Tag::Clause => len % 5 == 0,
        Tag::Equality => (4..=68).contains(&len),
        Tag::Starting => len == 5,
        Tag::AtMost => (5..=69).contains(&len),
        Tag::Unknown => false,
    }
}

// The first fault of a content whose length fits its kind, from left to right.
// Kept: v and n as two numbers, and v up to 64 as a clause (`v_in_bounds`): `ContentFault` speaks of any such two, and
// a type of both would ask more of callers.
pub fn content_fault(content: &[u8], kind: Tag, v: u32, n: u32) -> Result<(), Fault>
    requires length_value { length_fits kind (length content.now) ≡ true }
    requires v_in_bounds { v ≤ 64 }
    ensures { ContentFault content.now kind v n result }
{
    match kind {
        Tag::Clause => atoms_fault(content, v, n),
        Tag::Equality => equality_fault(content, v, n),
        Tag::Starting => starting_fault(content, v, n),
        Tag::AtMost => at_most_fault(content, v, n),
        Tag::Header | Tag::Unknown => Ok(()),
    }
}
