// What "at most k" leaves to be split: a named position whose room meets the set, where more than k
// rooms meet it. Such a room may have one value alone, so its size is tested here. The contracts cite
// specs/LowestBy.antt and specs/Meeting.antt.
ghost use Rattle.std.specs.Prelude.{◌≡◌, ◌&&◌, leb, length};
ghost use Rattle.sets.specs.Sets.{count, meets};
ghost use Rattle.rules.specs.Contents.{PositionsFit, ContentFits};
ghost use Rattle.rules.specs.Reading.{rule_of};
ghost use Rattle.rules.specs.declared.field.Tag.TheVariants.{AtMost};
ghost use Rattle.lowest.specs.LowestBy.{lowest_by};
ghost use Rattle.lowest.specs.Meeting.{lowest_meeting};

use at_most::rule::AtMostRule;
use at_most::settle::settled_at_most;
use rooms::Rooms;
use sets::Room;

// Whether a room has two or more values and meets a set.
fn wide_and_meets(room: Room, set: Room) -> bool
    ensures { result ≡ (leb 2 (count room) && meets room set) }
{
    room.count() >= 2 && room.meets(set)
}

// The lowest index below a bound of a position that is one of some, whose room has two or more values
// and meets the set; the bound where there is none.
// Kept: a scan of its own beside that of an equality, which has another test: with the test as a closure, the contract
// would have to say of each call what the closure answers, and would be no plainer.
fn lowest_meeting(rooms: &Rooms, positions: &[u8], set: Room, bound: usize) -> usize
    requires { PositionsFit (length rooms.now.box) positions.now }
    ensures { result ≡ lowest_meeting rooms.now.box set positions.now bound }
{
    let mut low = bound;
    for &p in positions {
        let i = p as usize - 1;
        if i < low && wide_and_meets(rooms.at(p as u32), set) {
            low = i;
        }
    }
    low
}

// The lowest index below a bound that step 4 may split because of the rule that a content is; the bound
// where there is none, and where the rule is settled.
pub(crate) fn lowest_by_at_most(rooms: &Rooms, content: &[u8], bound: usize) -> usize
    requires { ContentFits AtMost (length rooms.now.box) (length content.now) content.now }
    ensures { result ≡ lowest_by rooms.now.box (rule_of AtMost (length content.now) content.now) bound }
{
    if settled_at_most(rooms, content) {
        return bound;
    }
    let rule = AtMostRule::of(content);
    lowest_meeting(rooms, rule.positions, rule.set, bound)
}
