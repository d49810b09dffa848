// A little reader of the fields of rule files, written from 01's section "The rule file" and from 02's R-6
// and R-12.
ghost use Rattle.std.specs.Prelude.{◌-◌, ◌≤◌, length, IfSome};
ghost use Rattle.std.specs.Iterator.{at_most};

use super::values::Values;

// An atom of a clause, or a starting set: a position and the values that it may have.
#[derive(Clone, Copy)]
pub struct Atom {
    pub position: u8,
    pub values: Values,
}

impl From<[u8; 5]> for Atom {
    fn from(bytes: [u8; 5]) -> Atom {
        let [position, a, b, c, d] = bytes;
        Atom {
            position,
            values: Values::from([a, b, c, d]),
        }
    }
}

// The atoms of a clause, one after the other.
#[derive(Clone, Copy)]
pub struct Atoms<'a>(&'a [u8]);

impl<'a> Iterator for Atoms<'a> {
    type Item = Atom;

    ghost remaining = { λ s. at_most (length s.0.now) };

    fn next(&mut self) -> Option<Atom> {
        let (atom, behind) = self.0.split_first_chunk::<5>()?;
        self.0 = behind;
        Some(Atom::from(*atom))
    }
}

// What a field says.
#[derive(Clone, Copy)]
pub enum Rule<'a> {
    Clause(Atoms<'a>),
    Equality {
        values: Values,
        positions: &'a [u8],
    },
    Start(Atom),
    AtMost {
        count: u8,
        values: Values,
        positions: &'a [u8],
    },
}

// A clause of no atoms.
impl Default for Rule<'_> {
    fn default() -> Self {
        Rule::Clause(Atoms(&[]))
    }
}

// A field of a file: where it stands, and its bytes.
#[derive(Clone, Copy)]
pub struct Field<'a> {
    pub place: usize,
    pub bytes: &'a [u8],
}

impl<'a> Field<'a> {
    // The field that starts at a place, where these bytes have all of it: a tag, two bytes for a length, and
    // a content of that length.
    fn at_front(rest: &'a [u8], place: usize) -> Option<Field<'a>>
        ensures head { IfSome result (λ field. 3 ≤ length field.bytes.now) }
        ensures fits { IfSome result (λ field. length field.bytes.now ≤ length rest.now) }
    {
        let (head, _) = rest.split_first_chunk::<3>()?;
        let [_, high, low] = *head;
        let length = usize::from(u16::from_be_bytes([high, low]));
        let bytes = rest.get(..length + 3)?;
        Some(Field { place, bytes })
    }

    // What the field says, where its content has the form of its tag.
    pub(crate) fn rule(self) -> Option<Rule<'a>> {
        match self.bytes {
            [2, _, _, content @ ..] => clause(content),
            [3, _, _, content @ ..] => equality(content),
            [4, _, _, content @ ..] => start(content),
            [5, _, _, content @ ..] => at_most_rule(content),
            _ => None,
        }
    }

    pub(crate) fn is_start(self) -> bool {
        matches!(self.rule(), Some(Rule::Start(_)))
    }

    // Whether the field is the starting set of a position.
    pub(crate) fn starts(self, position: u8) -> bool {
        matches!(self.rule(), Some(Rule::Start(atom)) if atom.position == position)
    }
}

fn clause(content: &[u8]) -> Option<Rule<'_>> {
    if content.len() % 5 == 0 {
        Some(Rule::Clause(Atoms(content)))
    } else {
        None
    }
}

fn equality(content: &[u8]) -> Option<Rule<'_>> {
    let (values, positions) = content.split_first_chunk::<4>()?;
    Some(Rule::Equality {
        values: Values::from(*values),
        positions,
    })
}

fn start(content: &[u8]) -> Option<Rule<'_>> {
    match content.split_first_chunk::<5>()? {
        (atom, []) => Some(Rule::Start(Atom::from(*atom))),
        _ => None,
    }
}

fn at_most_rule(content: &[u8]) -> Option<Rule<'_>> {
    let (count, behind) = content.split_first()?;
    let (values, positions) = behind.split_first_chunk::<4>()?;
    Some(Rule::AtMost {
        count: *count,
        values: Values::from(*values),
        positions,
    })
}

// A field that the file does not have the whole of.
#[derive(Clone, Copy)]
pub struct Cut;

// The fields of a file behind its header. One that is cut is the last.
#[derive(Drop)]
pub struct Fields<'a> {
    file: &'a [u8],
    place: usize,
}

impl<'a> Fields<'a> {
    pub(crate) fn of(file: &'a [u8]) -> Fields<'a> {
        Fields { file, place: 5 }
    }
}

impl<'a> Iterator for Fields<'a> {
    type Item = Result<Field<'a>, Cut>;

    ghost remaining = { λ s. at_most (length s.file.now - s.place) };

    fn next(&mut self) -> Option<Result<Field<'a>, Cut>> {
        if self.file.len() <= self.place {
            return None;
        }
        match Field::at_front(&self.file[self.place..], self.place) {
            Some(field) => {
                self.place += field.bytes.len();
                Some(Ok(field))
            }
            None => {
                self.place = self.file.len();
                Some(Err(Cut))
            }
        }
    }
}
