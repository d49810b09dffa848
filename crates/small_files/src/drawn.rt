// The pseudo-random files.
use super::chance::Chance;
use super::reading::Fields;
use super::trying::Family;
use super::values::Values;
use super::writing::{Bytes, Kind, Written, header};
use arrayvec::CapacityError;
use std::ops::RangeInclusive;

// What files are drawn.
#[derive(Clone, Copy)]
struct Shape {
    // The numbers of positions and of values.
    v: u8,
    n: u8,
    // How many fields there are at most.
    fields: u8,
    // How many of eight fields are equalities, how many are starting sets and how many are at-most rules.
    equalities: u8,
    starts: u8,
    at_mosts: u8,
    // How many atoms a clause has at least.
    atoms: u8,
    // In how many of four draws a value is put into a set, a value is put into a starting set, and a set is
    // near {1..b}.
    density: u8,
    fitted: u8,
    ladders: u8,
}

// The numbers of positions and of values and the most fields of files of more positions or more
// values, with at most 4,096 assignments.
const LARGE: [(u8, u8, u8); 10] = [
    (12, 2, 8),
    (9, 2, 8),
    (7, 3, 8),
    (6, 4, 8),
    (5, 5, 8),
    (4, 8, 8),
    (3, 16, 8),
    (2, 32, 8),
    (1, 32, 8),
    (64, 1, 3),
];

// The families.
#[derive(Clone, Copy)]
pub enum Drawn {
    // All kinds of fields, with up to 4 positions and up to 4 values.
    Small,
    // Clauses of two to four atoms, which often need splits.
    Clauses,
    // Equalities of large sets.
    Equalities,
    // More positions or more values.
    Large,
    // All kinds of fields, with starting sets.
    Started,
    // Clauses of sets near {1..b} and starting sets, which are often of the special kind.
    Laddered,
    // Many values, of which the starting sets leave a few. There may be more assignments than are gone
    // through.
    Sparse,
    // At-most rules and clauses.
    AtMosts,
    // All kinds of fields, with starting sets and at-most rules.
    Mixed,
}

impl Drawn {
    pub const ALL: [Drawn; 9] = [
        Drawn::Small,
        Drawn::Clauses,
        Drawn::Equalities,
        Drawn::Large,
        Drawn::Started,
        Drawn::Laddered,
        Drawn::Sparse,
        Drawn::AtMosts,
        Drawn::Mixed,
    ];

    // What the next file is like.
    fn shape(self, chance: &mut Chance) -> Shape {
        match self {
            Drawn::Small => {
                let shape = Shape::sized(chance, 1..=4, 1..=4);
                Shape {
                    density: chance.within(1..=3),
                    fields: 8,
                    equalities: 1,
                    ..shape
                }
            }
            Drawn::Clauses => Shape {
                fields: 10,
                atoms: 2,
                ..Shape::sized(chance, 3..=4, 2..=4)
            },
            Drawn::Equalities => Shape {
                fields: 3,
                equalities: 8,
                density: 3,
                ..Shape::sized(chance, 2..=4, 2..=4)
            },
            Drawn::Large => Shape::large(chance),
            Drawn::Started => Shape {
                fields: 8,
                equalities: 1,
                starts: 3,
                ..Shape::sized(chance, 1..=4, 2..=6)
            },
            Drawn::Laddered => Shape {
                fields: 9,
                starts: 3,
                fitted: 3,
                ladders: 3,
                ..Shape::sized(chance, 2..=4, 3..=6)
            },
            Drawn::Sparse => Shape {
                fields: 10,
                equalities: 1,
                starts: 4,
                fitted: 1,
                ..Shape::sized(chance, 3..=6, 8..=32)
            },
            Drawn::AtMosts => Shape {
                fields: 6,
                at_mosts: 5,
                atoms: 2,
                ..Shape::sized(chance, 3..=6, 2..=4)
            },
            Drawn::Mixed => Shape {
                fields: 8,
                equalities: 1,
                starts: 2,
                at_mosts: 2,
                ..Shape::sized(chance, 1..=4, 2..=6)
            },
        }
    }
}

impl Family for Drawn {
    // Enough of each.
    fn size(&self) -> u32 {
        match self {
            Drawn::Small => 6000,
            Drawn::Large | Drawn::Sparse => 1000,
            _ => 3000,
        }
    }

    fn file(&self, chance: &mut Chance, _number: u32) -> Result<Bytes, CapacityError> {
        let shape = self.shape(chance);
        let mut file = header(shape.v, shape.n)?;
        for _ in 0..chance.draw(shape.fields.saturating_add(1)) {
            shape.write_field(chance, &mut file)?;
        }
        Ok(file)
    }
}

impl Shape {
    // A file with no fields, whose numbers of positions and of values are of two ranges.
    fn sized(
        chance: &mut Chance,
        positions: RangeInclusive<u8>,
        values: RangeInclusive<u8>,
    ) -> Shape {
        let v = chance.within(positions);
        let n = chance.within(values);
        Shape {
            v,
            n,
            fields: 0,
            equalities: 0,
            starts: 0,
            at_mosts: 0,
            atoms: 1,
            density: 2,
            fitted: 2,
            ladders: 0,
        }
    }

    // A file of more positions or more values.
    fn large(chance: &mut Chance) -> Shape {
        let (v, n, fields) = LARGE[usize::from(chance.draw(10))];
        Shape {
            v,
            n,
            fields,
            equalities: 2,
            starts: 0,
            at_mosts: 0,
            atoms: 2,
            density: chance.within(2..=3),
            fitted: 2,
            ladders: 0,
        }
    }

    // Writes a starting set, an at-most rule, an equality or a clause.
    fn write_field(self, chance: &mut Chance, file: &mut Bytes) -> Result<(), CapacityError> {
        let drawn = chance.draw(8);
        let starts = self.equalities.saturating_add(self.starts);
        if drawn < self.equalities {
            self.write_equality(chance, file)
        } else if drawn < starts {
            self.write_start(chance, file)
        } else if drawn < starts.saturating_add(self.at_mosts) {
            self.write_at_most(chance, file)
        } else {
            self.write_clause(chance, file)
        }
    }

    // One of positions 1 to v.
    fn position(self, chance: &mut Chance) -> u8 {
        chance.draw(self.v).saturating_add(1)
    }

    // Writes a starting set, and nothing where its position has one already.
    fn write_start(self, chance: &mut Chance, file: &mut Bytes) -> Result<(), CapacityError> {
        let position = self.position(chance);
        let sure = chance.draw(self.n).saturating_add(1);
        let values = drawn_values(chance, self.n, self.fitted, Some(sure));
        let again = Fields::of(file)
            .filter_map(|field| field.ok())
            .any(|field| field.starts(position));
        if again {
            return Ok(());
        }
        let mut field = Written::new(Kind::Start)?;
        field.add_atom(position, values)?;
        field.write(file)
    }

    // Writes an at-most rule: a count from 0 to 3, a set, and the positions in turn from one that is drawn
    // on, each in three of four draws.
    fn write_at_most(self, chance: &mut Chance, file: &mut Bytes) -> Result<(), CapacityError> {
        let values = self.values(chance);
        let count = chance.draw(4);
        let first = chance.draw(self.v);
        let mut field = Written::new(Kind::AtMost(count, values))?;
        for position in (first..self.v).chain(0..first) {
            if chance.holds(3) {
                field.add_position(position.saturating_add(1))?;
            }
        }
        field.write(file)
    }

    // Writes an equality of up to v positions.
    fn write_equality(self, chance: &mut Chance, file: &mut Bytes) -> Result<(), CapacityError> {
        let values = self.values(chance);
        let positions = chance.draw(self.v.saturating_add(1));
        let mut field = Written::new(Kind::Equality(values))?;
        for _ in 0..positions {
            field.add_position(self.position(chance))?;
        }
        field.write(file)
    }

    // Writes a clause: of no atoms in one of 100 draws, and otherwise of one of the least number and the next
    // two.
    fn write_clause(self, chance: &mut Chance, file: &mut Bytes) -> Result<(), CapacityError> {
        let atoms = if chance.draw(100) == 0 {
            0
        } else {
            self.atoms.saturating_add(chance.draw(3))
        };
        let mut field = Written::new(Kind::Clause)?;
        for _ in 0..atoms {
            let position = self.position(chance);
            field.add_atom(position, self.values(chance))?;
        }
        field.write(file)
    }

    // A set of values.
    fn values(self, chance: &mut Chance) -> Values {
        if chance.holds(self.ladders) {
            ladder(chance, self.n)
        } else {
            drawn_values(chance, self.n, self.density, None)
        }
    }
}

// A set of values from 1 to n: one that is sure, if there is one, and others in so many of four draws.
fn drawn_values(chance: &mut Chance, n: u8, times: u8, sure: Option<u8>) -> Values {
    let mut values = Values::EMPTY;
    for value in (1..=n).rev() {
        if sure == Some(value) || chance.holds(times) {
            values = values.with(value);
        }
    }
    values
}

// A set {1..b}, in which about every second time one value is changed: taken out, or put in.
fn ladder(chance: &mut Chance, n: u8) -> Values {
    let b = chance.draw(n.saturating_add(1));
    let changed = chance.draw(n.saturating_mul(2).saturating_add(1));
    (1..=n)
        .filter(|value| (*value <= b) != (*value == changed))
        .fold(Values::EMPTY, |values, value| values.with(value))
}
