// Looking at "at most k": the rooms inside the set are counted first, and then all others are cut. The
// contract cites specs/Promise.antt.
ghost use Rattle.std.specs.Prelude.{length};
ghost use Rattle.rules.specs.Contents.{ContentFits};
ghost use Rattle.rules.specs.declared.field.Tag.TheVariants.{AtMost};
ghost use Rattle.at_most.specs.Promise.{LooksAtMost};

use super::rule::AtMostRule;
use rooms::Rooms;

// Looks at the rule that a content is: a count, a set, and positions. More rooms inside the set than the
// count, and it is dead (false); just as many, and every other room is cut down to the values outside;
// fewer, and nothing changes.
pub fn look_at_most(rooms: &mut Rooms, content: &[u8]) -> bool
    requires { ContentFits AtMost (length rooms.old.box) (length content.now) content.now }
    ensures { LooksAtMost rooms.old content.now result rooms.new }
{
    let rule = AtMostRule::of(content);
    let inside = rule.counted(rooms).inside;
    if rule.most < inside {
        return false;
    }
    if inside == rule.most {
        rule.cut_others(rooms);
    }
    true
}
