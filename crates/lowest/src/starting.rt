// What a starting set leaves to be split: as the clause of its one atom does. No box inside the starting
// sets has anything to split here. The contract cites specs/LowestBy.antt.
ghost use Rattle.std.specs.Prelude.{◌≡◌, length};
ghost use Rattle.rules.specs.Contents.{ContentFits};
ghost use Rattle.rules.specs.Reading.{rule_of};
ghost use Rattle.rules.specs.declared.field.Tag.TheVariants.{Starting};
ghost use Rattle.lowest.specs.LowestBy.{lowest_by};

use rooms::Rooms;
use rules::field::atom_at;

// The index of its position, where that lies below a bound and its room meets the set and does not lie
// inside it; else the bound.
pub(crate) fn lowest_by_starting(rooms: &Rooms, content: &[u8], bound: usize) -> usize
    requires { ContentFits Starting (length rooms.now.box) (length content.now) content.now }
    ensures { result ≡ lowest_by rooms.now.box (rule_of Starting (length content.now) content.now) bound }
{
    let atom = atom_at(content, 0);
    let i = atom.position as usize - 1;
    let room = rooms.at(atom.position);
    if bound <= i {
        return bound;
    }
    if !room.meets(atom.set) || room.inside(atom.set) {
        return bound;
    }
    i
}
