// The union of the sets of one position of a clause. The contract cites specs/Promise.antt.
ghost use Rattle.clauses.specs.Promise.{UnitesAt};

use rules::atoms::atoms;
use sets::Room;

// The union of the sets that the clause which a content is has at a position: one scan over its atoms.
pub fn united_at(content: &[u8], position: u32) -> Room
    ensures { UnitesAt content.now position result }
{
    let mut all = Room::EMPTY;
    for atom in atoms(content) {
        if atom.position == position {
            all = all.union(atom.set);
        }
    }
    all
}
