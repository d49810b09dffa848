// Whether "at most k" is settled. The contract cites specs/Promise.antt.
ghost use Rattle.std.specs.Prelude.{length};
ghost use Rattle.rules.specs.Contents.{ContentFits};
ghost use Rattle.rules.specs.declared.field.Tag.TheVariants.{AtMost};
ghost use Rattle.at_most.specs.Promise.{SettlesAtMost};

use super::rule::AtMostRule;
use rooms::Rooms;

// Whether the rule that a content is, is settled: no more rooms of its positions meet its set than its
// count.
pub fn settled_at_most(rooms: &Rooms, content: &[u8]) -> bool
    requires { ContentFits AtMost (length rooms.now.box) (length content.now) content.now }
    ensures { SettlesAtMost rooms.now content.now result }
{
    let rule = AtMostRule::of(content);
    rule.counted(rooms).meeting <= rule.most
}
