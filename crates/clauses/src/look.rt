// Looking at one clause: a scan over its atoms, which is left at the second live position, and the
// cut. The contracts cite specs/Promise.antt, specs/Scans.antt and the search of `steps`.
ghost use Rattle.std.specs.Prelude.{length};
ghost use Rattle.clauses.specs.Promise.{LooksAtoms};
ghost use Rattle.rules.specs.Contents.{Atoms, AtomsFit};
ghost use Rattle.clauses.specs.Scans.{FirstMet, OnlyMet};

use rooms::Rooms;
use rules::atoms::{EachAtom, atoms};
use sets::Room;

// A live position, and what its room shares with those of its sets that a scan has met.
#[derive(Clone, Copy)]
struct Met {
    position: u32,
    kept: Room,
}

// Scans the atoms for the first whose set its position's room meets. Those behind it are left to the
// next scan.
fn first_live(rooms: &Rooms, left: &mut EachAtom<'_>) -> Option<Met>
    requires { AtomsFit (length rooms.now.box) left.old }
    ensures { FirstMet rooms.now.box left.old result left.new }
{
    left.find_map(|atom| {
        let kept = rooms.at(atom.position).common(atom.set);
        (!kept.is_empty()).then_some(Met {
            position: atom.position,
            kept,
        })
    })
}

// Goes on with the scan: what the room of the one live position shares with all of its sets; `None` where
// a second position is live, at which the scan is left.
fn only_live(rooms: &Rooms, left: EachAtom<'_>, met: Met) -> Option<Room>
    requires { AtomsFit (length rooms.now.box) left }
    ensures { OnlyMet rooms.now.box left.entry met result }
{
    let mut kept = met.kept;
    for atom in left {
        let shared = rooms.at(atom.position).common(atom.set);
        // The second test stands inside the first, and the union there behind it: other ways to say it run more
        // instructions.
        if !shared.is_empty() {
            if atom.position != met.position {
                return None;
            }
            kept = kept.union(shared);
        }
    }
    Some(kept)
}

// Looks at the clause that a content is: no live position, and it is dead (false); one, and its room is
// cut down to what it shares with the union of its sets; more, and nothing changes. A position is live by
// an atom whose set its room meets, and only these atoms' sets matter to the cut: those of its other atoms
// share nothing with the room.
pub fn look_atoms(rooms: &mut Rooms, content: &[u8]) -> bool
    requires { Atoms (length rooms.old.box) (length content.now) content.now }
    ensures { LooksAtoms rooms.old content.now result rooms.new }
{
    let mut left = atoms(content);
    let Some(met) = first_live(rooms, &mut left) else {
        return false;
    };
    let position = met.position;
    if let Some(kept) = only_live(rooms, left, met) {
        rooms.put(position, kept);
    }
    true
}
