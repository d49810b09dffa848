// Shrinking a box: rounds over all fields of a sound file, read from the input's own bytes, until
// one changes nothing or finds a dead field. The contracts cite specs/Rounds.antt and
// specs/Promise.antt, and Looks.antt of `rooms`.
ghost use Rattle.std.specs.Prelude.{length};
ghost use Rattle.rules.specs.Reading.{rule_of};
ghost use Rattle.rules.specs.Contents.{ContentFits};
ghost use Rattle.rules.specs.Sound.{SoundInput};
ghost use Rattle.steps.specs.Boxes.{Rooms as FullRooms};
ghost use Rattle.steps.specs.Shrinking.{look_rule};
ghost use Rattle.rooms.specs.Looks.{Leaves};
ghost use Rattle.boxes.specs.Rounds.{Rounded};
ghost use Rattle.boxes.specs.Promise.{Shrinks};

use super::equality::look_equality;
use at_most::look::look_at_most;
use clauses::look::look_atoms;
use rooms::Rooms;
use rules::field::Tag;
use rules::fields::{FieldBytes, fields};

// A box is dead: no assignment in it meets the field with this place.
#[derive(Clone, Copy, PartialEq, Eq, Debug)]
pub struct Dead {
    pub place: usize,
}

// What shrinking finds: the box lives, or a field is dead.
pub type Verdict = Result<(), Dead>;

// The verdict, and the rounds that shrinking took.
#[derive(Clone, Copy)]
pub struct Shrunk {
    pub verdict: Verdict,
    pub rounds: u64,
}

// Looks at a field: false where it is dead; else its cuts are made.
// Kept: a bool and no `Result`, in every look: `LooksAtoms` and `LooksAtMost` say it, and the place of a dead field is
// known to the round alone.
pub(crate) fn look_field(field: FieldBytes<'_>, rooms: &mut Rooms) -> bool
    requires { ContentFits field.kind (length rooms.old.box) (length field.content.now) field.content.now }
    ensures { Leaves look_rule (rule_of field.entry.kind (length field.entry.content.now) field.entry.content.now) rooms.old result rooms.new }
{
    match field.kind {
        Tag::Header => true,
        Tag::Clause => look_atoms(rooms, field.content),
        Tag::Equality => look_equality(rooms, field.content),
        Tag::Starting => look_atoms(rooms, field.content),
        Tag::AtMost => look_at_most(rooms, field.content),
        Tag::Unknown => true,
    }
}

// One round: looks at every field in the order of the file.
pub(crate) fn look_round(input: &[u8], rooms: &mut Rooms) -> Verdict
    requires { SoundInput input.now (length rooms.old.box) }
    ensures { Rounded input.now rooms.old result rooms.new }
{
    for field in fields(input) {
        if !look_field(field, rooms) {
            return Err(Dead { place: field.place });
        }
    }
    Ok(())
}

// Shrinks a box under the rules of a sound file, where it stands: the rooms are left as they are where
// nothing is left to cut, and with no value in any of them where a field was found dead. The last round
// counts too, whether it changes nothing or finds a dead field.
// Kept: that the input is a sound file is asked here, in `choose`, `search`, `search_from` and their inner functions. It is
// said of the bytes and the number of rooms together, so a type of either would be no plainer, and would ask more of callers.
pub fn shrink(input: &[u8], rooms: &mut Rooms) -> Shrunk
    requires { SoundInput input.now (length rooms.old.box) × FullRooms rooms.old.box }
    ensures { Shrinks input.now rooms.old result rooms.new }
{
    // The number of the round that is gone through.
    let mut rounds = 1;
    // Kept: no plainer as a `for`, since shrinking ends by its own answer and not after so many rounds.
    loop {
        let mut next = *rooms;
        if let Err(dead) = look_round(input, &mut next) {
            rooms.clear();
            return Shrunk {
                verdict: Err(dead),
                rounds,
            };
        }
        if next.as_slice() == rooms.as_slice() {
            return Shrunk {
                verdict: Ok(()),
                rounds,
            };
        }
        *rooms = next;
        rounds += 1;
    }
}
