// The systematic files: families in which every file of a kind stands once, each with a number.
ghost use Rattle.std.specs.Iterator.{at_most};

use super::chance::Chance;
use super::trying::Family;
use super::values::Values;
use super::writing::{Bytes, Kind, Written, header};
use arrayvec::CapacityError;

// What a field repeats, given by a number: 0 is no item, then come those of one item, then those of two, and
// so on. An item is one of v positions and one of so many sets. They are the digits of the number, from the
// last one on: the position, and before it the set. Of no position or no set there is no item.
#[derive(Clone, Copy)]
struct Items {
    number: u32,
    v: u8,
    sets: u8,
}

impl Iterator for Items {
    type Item = (u8, Values);

    ghost remaining = { λ s. at_most s.number };

    fn next(&mut self) -> Option<(u8, Values)> {
        let rest = self.number.checked_sub(1)?;
        let v = u32::from(self.v);
        let sets = u32::from(self.sets);
        if v == 0 || sets == 0 {
            return None;
        }
        let position = (rest % v) as u8 + 1;
        let values = Values(rest / v % sets);
        self.number = rest / v / sets;
        Some((position, values))
    }
}

// A field: its kind, and what it repeats. An equality and an at-most rule have only the positions of the items.
#[derive(Clone, Copy)]
struct Field {
    kind: Kind,
    items: Items,
}

impl Field {
    // The clause with a number.
    fn clause(number: u32, v: u8, sets: u8) -> Field {
        Field {
            kind: Kind::Clause,
            items: Items { number, v, sets },
        }
    }

    // The equality of a set with the list of positions that has a number.
    fn equality(values: u32, number: u32, v: u8) -> Field {
        Field {
            kind: Kind::Equality(Values(values)),
            items: Items { number, v, sets: 1 },
        }
    }

    // The starting set with a number, of v positions and three values: one item whose set is not empty, so
    // that no item and the v with the empty set are left out.
    fn starting(number: u32, v: u8) -> Field {
        Field {
            kind: Kind::Start,
            items: Items {
                number: number.saturating_add(u32::from(v) + 1),
                v,
                sets: 8,
            },
        }
    }

    // At most so many of one of the eight lists of positions in a set.
    fn at_most(count: u32, values: u32, list: u32) -> Field {
        Field {
            kind: Kind::AtMost((count % 4) as u8, Values(values)),
            items: Items {
                number: LISTS[(list % 8) as usize],
                v: 3,
                sets: 1,
            },
        }
    }

    // Writes the field at the end of a file.
    fn write(self, file: &mut Bytes) -> Result<(), CapacityError> {
        let mut field = Written::new(self.kind)?;
        for (position, values) in self.items {
            match self.kind {
                Kind::Clause | Kind::Start => field.add_atom(position, values)?,
                Kind::Equality(_) | Kind::AtMost(..) => field.add_position(position)?,
            }
        }
        field.write(file)
    }
}

// The lists of different positions from 1 to 3, rising, by the numbers that they have as items: no position,
// 1, 2, 3, 1 and 2, 1 and 3, 2 and 3, all three.
const LISTS: [u32; 8] = [0, 1, 2, 3, 7, 10, 11, 34];

// The families, with how many first and second fields there are.
#[derive(Clone, Copy)]
pub enum Systematic {
    // 73 by 73, a clause of up to two atoms and another.
    TwoClauses,
    // 273 by 17, a clause of up to two atoms and one of up to one atom, of three values.
    TwoClausesOfThreeValues,
    // 56 by 56, an equality of up to two positions and another.
    TwoEqualities,
    // 73 by 60, a clause of up to two atoms and an equality of up to three positions.
    ClauseAndEquality,
    // 320 by 25, an equality of up to three positions and a clause of up to one atom.
    EqualityAndClause,
    // 5456, an equality of up to four positions.
    OneEquality,
    // 273 by 14, a clause of up to two atoms and a starting set behind it.
    ClauseAndStart,
    // 14 by 120, a starting set and behind it an equality of up to three positions.
    StartAndEquality,
    // 256 by 25, at most 0 to 3 of different positions, and a clause of up to one atom.
    AtMostAndClause,
    // 96 by 48, at most 0 to 2 of different positions, and at most 0 to 2 of two or three.
    TwoAtMosts,
    // 21 by 96, a starting set, and at most 0 to 2 of two or three positions.
    StartAndAtMost,
    // 8 by 192, an equality of the positions 1, 2 and 3, and at most 0 to 2 of different positions.
    EqualityAndAtMost,
}

impl Systematic {
    pub const ALL: [Systematic; 12] = [
        Systematic::TwoClauses,
        Systematic::TwoClausesOfThreeValues,
        Systematic::TwoEqualities,
        Systematic::ClauseAndEquality,
        Systematic::EqualityAndClause,
        Systematic::OneEquality,
        Systematic::ClauseAndStart,
        Systematic::StartAndEquality,
        Systematic::AtMostAndClause,
        Systematic::TwoAtMosts,
        Systematic::StartAndAtMost,
        Systematic::EqualityAndAtMost,
    ];

    // A file with no fields yet, of the family's numbers of positions and of values.
    fn header(self) -> Result<Bytes, CapacityError> {
        let (v, n) = match self {
            Systematic::TwoClauses | Systematic::ClauseAndEquality => (2, 2),
            Systematic::TwoClausesOfThreeValues | Systematic::TwoEqualities => (2, 3),
            Systematic::ClauseAndStart | Systematic::StartAndEquality => (2, 3),
            Systematic::TwoAtMosts => (3, 2),
            Systematic::EqualityAndClause | Systematic::AtMostAndClause => (3, 3),
            Systematic::StartAndAtMost | Systematic::EqualityAndAtMost => (3, 3),
            Systematic::OneEquality => (4, 4),
        };
        header(v, n)
    }

    // The first field of the file with a number.
    fn first_of(self, number: u32) -> Field {
        match self {
            Systematic::TwoClauses | Systematic::ClauseAndEquality => {
                Field::clause(number % 73, 2, 4)
            }
            Systematic::TwoClausesOfThreeValues | Systematic::ClauseAndStart => {
                Field::clause(number % 273, 2, 8)
            }
            Systematic::TwoEqualities => Field::equality(number % 8, number / 64 % 7, 2),
            Systematic::EqualityAndClause => Field::equality(number % 8, number / 8 % 40, 3),
            Systematic::OneEquality => Field::equality(number % 16, number / 16, 4),
            Systematic::StartAndEquality => Field::starting(number % 14, 2),
            Systematic::AtMostAndClause => {
                Field::at_most(number % 4, number / 4 % 8, number / 32)
            }
            Systematic::TwoAtMosts => Field::at_most(number % 3, number / 3 % 4, number / 12),
            Systematic::StartAndAtMost => Field::starting(number % 21, 3),
            Systematic::EqualityAndAtMost => Field::equality(number % 8, LISTS[7], 3),
        }
    }

    // Its second field, where the family has one.
    fn second_of(self, number: u32) -> Option<Field> {
        Some(match self {
            Systematic::TwoClauses => Field::clause(number / 73, 2, 4),
            Systematic::TwoClausesOfThreeValues => Field::clause(number / 273, 2, 8),
            Systematic::TwoEqualities => Field::equality(number / 8 % 8, number / 448, 2),
            Systematic::ClauseAndEquality => Field::equality(number / 73 % 4, number / 292, 2),
            Systematic::EqualityAndClause => Field::clause(number / 320, 3, 8),
            Systematic::OneEquality => return None,
            Systematic::ClauseAndStart => Field::starting(number / 273, 2),
            Systematic::StartAndEquality => Field::equality(number / 14 % 8, number / 112, 2),
            Systematic::AtMostAndClause => Field::clause(number / 256, 3, 8),
            Systematic::TwoAtMosts => {
                Field::at_most(number / 96 % 3, number / 288 % 4, 4 + number / 1152)
            }
            Systematic::StartAndAtMost => {
                Field::at_most(number / 21 % 3, number / 63 % 8, 4 + number / 504)
            }
            Systematic::EqualityAndAtMost => {
                Field::at_most(number / 8 % 3, number / 24 % 8, number / 192)
            }
        })
    }
}

impl Family for Systematic {
    // All that there are.
    fn size(&self) -> u32 {
        match self {
            Systematic::TwoClauses => 5329,
            Systematic::TwoClausesOfThreeValues => 4641,
            Systematic::TwoEqualities => 3136,
            Systematic::ClauseAndEquality => 4380,
            Systematic::EqualityAndClause => 8000,
            Systematic::OneEquality => 5456,
            Systematic::ClauseAndStart => 3822,
            Systematic::StartAndEquality => 1680,
            Systematic::AtMostAndClause => 6400,
            Systematic::TwoAtMosts => 4608,
            Systematic::StartAndAtMost => 2016,
            Systematic::EqualityAndAtMost => 1536,
        }
    }

    fn file(&self, _chance: &mut Chance, number: u32) -> Result<Bytes, CapacityError> {
        let mut file = self.header()?;
        self.first_of(number).write(&mut file)?;
        if let Some(second) = self.second_of(number) {
            second.write(&mut file)?;
        }
        Ok(file)
    }
}
