// The atoms of a content, gone through one after another. The contracts cite specs/Each.antt.
ghost use Rattle.std.specs.Prelude.{◌≡◌, ◌+◌, ◌-◌, ◌≤◌, length, drop};
ghost use Rattle.std.specs.Iterator.{YieldsFirst, item_count};
ghost use Rattle.rules.specs.Each.{atoms_in};

use super::field::{Atom, atom_at};
use std::marker::Model;

// The atoms that are still to come, by the place where the next one ends, or would end: so the test whether it is
// there needs no sum. Contracts see them as the list of these.
#[derive(Drop)]
pub struct EachAtom<'a> {
    bytes: &'a [u8],
    end: usize,
}

impl<'a> Model for EachAtom<'a> {
    ghost use Rattle.std.specs.Prelude.{List, ◌+◌, ◌-◌, ◌≤◌, length, drop};
    ghost use Rattle.rules.specs.declared.field.Atom.{Atom};

    ghost Value = { List Atom };

    ghost use Rattle.rules.specs.Each.{atoms_in};

    ghost view = { λ atoms. atoms_in (drop (atoms.end - 5) atoms.bytes.now) };

    ghost invariant = { λ atoms. (5 ≤ atoms.end) × (atoms.end ≤ length atoms.bytes.now + 5) };
}

// All atoms of a content; bytes behind the last whole one are left out.
pub fn atoms(content: &[u8]) -> EachAtom<'_>
    ensures { result ≡ atoms_in content.now }
{
    EachAtom {
        bytes: content,
        end: 5,
    }
}

impl<'a> Iterator for EachAtom<'a> {
    type Item = Atom;

    ghost next_gives = { YieldsFirst (λ atoms. atoms) };

    ghost remaining = { item_count (λ atoms. atoms) };

    fn next(&mut self) -> Option<Atom> {
        let end = self.end;
        if self.bytes.len() < end {
            return None;
        }
        let atom = atom_at(self.bytes, end - 5);
        self.end = end + 5;
        Some(atom)
    }
}
