// Looking at a set equality, as the clauses that it means: for each named position "it is in M",
// then for each value of M, rising, "one of the named positions is in it". The contracts cite
// Looks.antt of `rooms`, Parts.antt of `rules` and the search of `steps`.
ghost use Rattle.std.specs.Prelude.{◌∷◌, [], map, ◌-◌, ◌≤◌, length, drop};
ghost use Rattle.rules.specs.Reading.{rule_of};
ghost use Rattle.rules.specs.declared.field.Tag.TheVariants.{Equality};
ghost use Rattle.steps.specs.Shrinking.{look_part, look_parts, look_rule};
ghost use Rattle.rules.specs.Parts.{one_of, atom_in, each_inside, each_taken};
ghost use Rattle.rooms.specs.Looks.{Leaves};
ghost use Rattle.rules.specs.Contents.{Positions, PositionsFit};

use rooms::Rooms;
use rules::field::set_at;
use sets::Room;

// Looks at the clause "the position is in the set": false where its room has no value of the set.
pub(crate) fn look_single(rooms: &mut Rooms, position: u32, set: Room) -> bool
    requires { (1 ≤ position) × (position ≤ length rooms.old.box) }
    ensures { Leaves look_part (one_of (atom_in set position ∷ [])) rooms.old result rooms.new }
{
    let shared = rooms.at(position).common(set);
    if shared.is_empty() {
        return false;
    }
    rooms.put(position, shared);
    true
}

// Looks at the clauses "it is in the set" of the positions.
// Kept: positions and a set as two arguments, here and below: the set is that of the equality in one look and one value
// in the others, so a type of both would be no plainer.
pub(crate) fn look_inside(rooms: &mut Rooms, positions: &[u8], set: Room) -> bool
    requires { PositionsFit (length rooms.old.box) positions.now }
    ensures { Leaves look_parts (each_inside set positions.now) rooms.old result rooms.new }
{
    for &position in positions {
        if !look_single(rooms, u32::from(position), set) {
            return false;
        }
    }
    true
}

// Looks at the clause "one of the positions is in the set": false where none of their rooms meets the
// set. The scan is left at the second live position.
// Kept: written out beside the look at a clause of `clauses`, and no plainer as one: all positions have the
// same set here, so no sets are united, one scan is enough, and `look_single` does the cut.
pub(crate) fn look_any(rooms: &mut Rooms, positions: &[u8], set: Room) -> bool
    requires { PositionsFit (length rooms.old.box) positions.now }
    ensures { Leaves look_part (one_of (map (atom_in set) positions.now)) rooms.old result rooms.new }
{
    let mut live: Option<u32> = None;
    for &p in positions {
        let position = u32::from(p);
        if !rooms.at(position).meets(set) {
            continue;
        }
        if let Some(first) = live {
            if first != position {
                return true;
            }
        }
        live = Some(position);
    }
    match live {
        None => false,
        Some(position) => look_single(rooms, position, set),
    }
}

// Looks at the clauses "one of the positions is in {x}" of the values x of the set, rising.
pub(crate) fn look_values(rooms: &mut Rooms, positions: &[u8], set: Room) -> bool
    requires { PositionsFit (length rooms.old.box) positions.now }
    ensures { Leaves look_parts (each_taken set positions.now) rooms.old result rooms.new }
{
    let mut left = set;
    // Kept: `sets` has no iterator over a set's values, and one for this loop alone would be no plainer.
    while !left.is_empty() {
        let one = Room::single(left.smallest());
        if !look_any(rooms, positions, one) {
            return false;
        }
        left = left.others();
    }
    true
}

// Looks at the equality that a content is.
pub(crate) fn look_equality(rooms: &mut Rooms, content: &[u8]) -> bool
    requires { (4 ≤ length content.now) × Positions (length rooms.old.box) (length content.now - 4) (drop 4 content.now) }
    ensures { Leaves look_rule (rule_of Equality (length content.now) content.now) rooms.old result rooms.new }
{
    let set = set_at(content, 0);
    let positions = &content[4..];
    look_inside(rooms, positions, set) && look_values(rooms, positions, set)
}
