// What the bytes of one field say: its tag, its length, its atoms, its set and its positions.
// The contracts cite specs/Promise.antt, which goes by specs/Reading.antt.
ghost use Rattle.std.specs.Prelude.{◌+◌, ◌<◌, ◌≤◌, length};
ghost use Rattle.rules.specs.Promise.{TagOf, SetAt, AtomAt, HeadAt};

use sets::Room;

// The kinds of field that a tag byte can announce.
// Kept: an unknown tag as a kind beside the others, and no `Option`: `TagOf`, `LengthFits` and `ContentFault`
// speak of every byte, and 01 has a refusal for a tag that is not known.
#[derive(Clone, Copy, PartialEq, Eq, Debug)]
pub enum Tag {
    Header,
    Clause,
    Equality,
    Starting,
    AtMost,
    Unknown,
}

// A position and the set that its value may lie in.
#[derive(Clone, Copy, PartialEq, Eq)]
pub struct Atom {
    pub position: u32,
    pub set: Room,
}

// The first three bytes of a field: its tag byte, and how many bytes of content follow.
#[derive(Clone, Copy, PartialEq, Eq, Debug)]
pub struct Head {
    pub tag: u8,
    pub length: usize,
}

// The decision over the tag byte. Tags 1 to 5 are known.
impl From<u8> for Tag {
    ghost from_gives = { TagOf };

    #[tactic(auto, unfolding(crate::specs::Reading::tag_of))]
    fn from(tag: u8) -> Tag {
        match tag {
            1 => Tag::Header,
            2 => Tag::Clause,
            3 => Tag::Equality,
            4 => Tag::Starting,
            5 => Tag::AtMost,
            0 | 6..=255 => Tag::Unknown,
        }
    }
}

// The four bytes from `at` on as a set, high byte first.
pub fn set_at(bytes: &[u8], at: usize) -> Room
    requires { at + 4 ≤ length bytes.now }
    ensures { SetAt bytes.now at result }
{
    let four = [bytes[at], bytes[at + 1], bytes[at + 2], bytes[at + 3]];
    Room::from(u32::from_be_bytes(four))
}

// The five bytes from `at` on as an atom: a position byte, then its set.
pub fn atom_at(bytes: &[u8], at: usize) -> Atom
    requires { at + 5 ≤ length bytes.now }
    ensures { AtomAt bytes.now at result }
{
    let position = u32::from(bytes[at]);
    let set = set_at(bytes, at + 1);
    Atom { position, set }
}

// The head of the field that starts at `at`. Its length is a number of two bytes, so that the sum of a place in a file
// and a length fits.
pub fn head_at(bytes: &[u8], at: usize) -> Head
    requires { at + 3 ≤ length bytes.now }
    ensures { HeadAt bytes.now at result × (result.length < 65536) }
{
    let tag = bytes[at];
    let two = [bytes[at + 1], bytes[at + 2]];
    let length = usize::from(u16::from_be_bytes(two));
    Head { tag, length }
}
