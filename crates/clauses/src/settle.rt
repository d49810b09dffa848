// Whether one clause is settled: atom by atom, and where a position has several that meet its room, by the
// union of its sets, which is worked out when it is needed. The contract cites specs/Promise.antt.
ghost use Rattle.std.specs.Prelude.{length};
ghost use Rattle.rules.specs.Contents.{Atoms};
ghost use Rattle.clauses.specs.Promise.{SettlesUnited};

use super::united::united_at;
use rooms::Rooms;
use rules::atoms::atoms;
use sets::marks::Marks;

// Whether the clause that a content is, is settled: some position has its room inside the union of its sets.
// A set that does not meet the room adds nothing to that, and one alone is told at its own atom. So the union
// is worked out at the second atom that meets the room of its position, and once: one scan for each position
// that has two such atoms, 64 at most, beside the scan over the atoms.
pub fn settled_united(rooms: &Rooms, content: &[u8]) -> bool
    requires { Atoms (length rooms.now.box) (length content.now) content.now }
    ensures { SettlesUnited rooms.now content.now result }
{
    // The positions whose rooms an atom has met, and those whose union did not settle the clause.
    let mut met = Marks::none();
    let mut tried = Marks::none();
    for atom in atoms(content) {
        let room = rooms.at(atom.position);
        if room.inside(atom.set) {
            return true;
        }
        if !room.meets(atom.set) {
            continue;
        }
        let p = atom.position as usize - 1;
        if !met.has(p) {
            met = met.with(p);
            continue;
        }
        if tried.has(p) {
            continue;
        }
        let all = united_at(content, atom.position);
        if room.inside(all) {
            return true;
        }
        tried = tried.with(p);
    }
    false
}
