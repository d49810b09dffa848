// Writing rule files, from 01's section "The rule file" and 02's R-6 and R-12.
use super::values::Values;
use arrayvec::{ArrayVec, CapacityError};

// How many bytes the content of a field has at most: the set and the positions of an equality of 64 positions.
const LONGEST_CONTENT: usize = 4 + 64;

// How many bytes a file has at most: its header, and three such fields and one of them once more. Files of more
// fields have shorter ones.
const LONGEST: usize = 5 + 4 * (3 + LONGEST_CONTENT);

// The bytes of a file.
pub type Bytes = ArrayVec<u8, LONGEST>;

// The kinds of fields, each with what stands before the items that it repeats: the set of an equality, and the
// count and the set of an at-most rule.
#[derive(Clone, Copy)]
pub enum Kind {
    Clause,
    Equality(Values),
    Start,
    AtMost(u8, Values),
}

impl Kind {
    // The tag.
    fn tag(self) -> u8 {
        match self {
            Kind::Clause => 2,
            Kind::Equality(_) => 3,
            Kind::Start => 4,
            Kind::AtMost(..) => 5,
        }
    }
}

// A field as it is written: its kind and its content.
#[derive(Drop)]
pub struct Written {
    kind: Kind,
    content: ArrayVec<u8, LONGEST_CONTENT>,
}

impl Written {
    // The start of a field, with no item yet.
    pub(crate) fn new(kind: Kind) -> Result<Written, CapacityError> {
        let mut content = ArrayVec::new();
        match kind {
            Kind::Clause | Kind::Start => {}
            Kind::Equality(values) => content.try_extend_from_slice(&values.0.to_be_bytes())?,
            Kind::AtMost(count, values) => {
                content.try_extend_from_slice(&[count])?;
                content.try_extend_from_slice(&values.0.to_be_bytes())?;
            }
        }
        Ok(Written { kind, content })
    }

    // Adds a position, as an equality and an at-most rule repeat them.
    pub(crate) fn add_position(&mut self, position: u8) -> Result<(), CapacityError> {
        self.content.try_extend_from_slice(&[position])
    }

    // Adds a position and its set, as a clause repeats them. A starting set is one such item.
    pub(crate) fn add_atom(&mut self, position: u8, values: Values) -> Result<(), CapacityError> {
        self.content.try_extend_from_slice(&[position])?;
        self.content.try_extend_from_slice(&values.0.to_be_bytes())
    }

    // Writes the field at the end of a file: its tag, two bytes for its length, and its content.
    pub(crate) fn write(&self, file: &mut Bytes) -> Result<(), CapacityError> {
        let length = self.content.len() % 65536;
        let [high, low] = (length as u16).to_be_bytes();
        file.try_extend_from_slice(&[self.kind.tag(), high, low])?;
        file.try_extend_from_slice(&self.content)
    }
}

// A file with no fields yet.
pub(crate) fn header(v: u8, n: u8) -> Result<Bytes, CapacityError> {
    Bytes::try_from([1, 0, 2, v, n].as_slice())
}
