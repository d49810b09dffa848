// What a field that is no clause leaves to be split, by its kind. The contract cites specs/Promise.antt.
ghost use Rattle.std.specs.Prelude.{◌≡◌, length};
ghost use Rattle.rules.specs.Contents.{ContentFits};
ghost use Rattle.rules.specs.declared.field.Tag.TheVariants.{Clause};
ghost use Rattle.lowest.specs.Promise.{LowestByKind};

use super::equality::lowest_by_equality;
use super::meeting::lowest_by_at_most;
use super::starting::lowest_by_starting;
use rooms::Rooms;
use rules::field::Tag;

// The lowest index below a bound that step 4 may split because of the rule that a content is; the bound
// where there is none.
// Kept: the bound and no `Option`, since the answer is the bound for the next field, and an `Option` would be taken
// apart there; no plainer.
// Kept: what is asked of a content (`ContentFits`) stands here, in `look_at_most`, `settled_at_most`, `look_atoms`,
// `settled_united` and inner functions. It is said of the bytes, the kind and the number of rooms together, so a type
// of one of them would be no plainer, and would ask more of callers.
pub fn lowest_by_kind(rooms: &Rooms, content: &[u8], kind: Tag, bound: usize) -> usize
    requires { (kind ≡ Clause → ⊥) × ContentFits kind (length rooms.now.box) (length content.now) content.now }
    ensures { LowestByKind rooms.now content.now kind bound result }
{
    match kind {
        Tag::Equality => lowest_by_equality(rooms, content, bound),
        Tag::Starting => lowest_by_starting(rooms, content, bound),
        Tag::AtMost => lowest_by_at_most(rooms, content, bound),
        Tag::Header | Tag::Clause | Tag::Unknown => bound,
    }
}
