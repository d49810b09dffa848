// The rule "at most k of these positions take a value in the set", as a content has it. The contracts cite
// specs/Promise.antt, specs/Counted.antt and the search of `steps`.
ghost use Rattle.std.specs.Prelude.{◌≡◌, ◌≤◌, length};
ghost use Rattle.rules.specs.Contents.{PositionsFit};
ghost use Rattle.rooms.specs.Held.{with_box};
ghost use Rattle.steps.specs.Shrinking.{cut_others};
ghost use Rattle.at_most.specs.Counted.{Counted};
ghost use Rattle.at_most.specs.Promise.{ReadsAtMost};

use rooms::Rooms;
use rules::field::set_at;
use sets::Room;

// A count, a set, and the positions of which at most so many take a value in the set, a byte each.
#[derive(Clone, Copy)]
pub struct AtMostRule<'a> {
    pub most: usize,
    pub set: Room,
    pub positions: &'a [u8],
}

// How many of some rooms lie inside a set, and how many meet it.
#[derive(Clone, Copy)]
pub(crate) struct Counts {
    pub(crate) inside: usize,
    pub(crate) meeting: usize,
}

impl<'a> AtMostRule<'a> {
    // The rule that a content is: its count, its set, and the positions behind them.
    pub fn of(content: &'a [u8]) -> AtMostRule<'a>
        requires { 5 ≤ length content.now }
        ensures { ReadsAtMost content.now result }
    {
        AtMostRule {
            most: content[0] as usize,
            set: set_at(content, 1),
            positions: &content[5..],
        }
    }

    // Counts among the rooms of the positions. An empty room lies inside every set, and meets none.
    pub(crate) fn counted(&self, rooms: &Rooms) -> Counts
        requires { PositionsFit (length rooms.now.box) self.now.positions.now }
        ensures { Counted self.now.set self.now.positions.now rooms.now.box result }
    {
        let mut inside = 0;
        let mut meeting = 0;
        for &p in self.positions {
            let room = rooms.at(p as u32);
            if room.inside(self.set) {
                inside += 1;
            }
            if room.meets(self.set) {
                meeting += 1;
            }
        }
        Counts { inside, meeting }
    }

    // Cuts the rooms of the positions, where they do not lie inside the set, down to the values outside.
    pub(crate) fn cut_others(&self, rooms: &mut Rooms)
        requires { PositionsFit (length rooms.old.box) self.now.positions.now }
        ensures { rooms.new ≡ with_box (cut_others self.now.set self.now.positions.now rooms.old.box) rooms.old }
    {
        let outside = self.set.complement(Room::VALUES);
        for &p in self.positions {
            let room = rooms.at(p as u32);
            if !room.inside(self.set) {
                rooms.put(p as u32, room.common(outside));
            }
        }
    }
}
