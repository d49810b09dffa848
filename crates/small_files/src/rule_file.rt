// Rule files that are sound, read whole: written from 01's section "The rule file" and from 02's R-6 and
// R-12.
use super::reading::{Atom, Field, Fields, Rule};
use super::values::Values;
use arrayvec::ArrayVec;

// How many rules a file has at most: ten where it is made, and few more where it is damaged. One of more would
// count as not sound, and the planner's reply to it as a difference.
const MOST_RULES: usize = 32;

// What the fields of a file say.
type Rules<'a> = ArrayVec<Rule<'a>, MOST_RULES>;

// The numbers of positions and of values that a header names.
#[derive(Clone, Copy)]
struct Header {
    v: u8,
    n: u8,
}

impl Header {
    // The header of a file, where it is one of 1 to 64 positions and 1 to 32 values.
    fn of(file: &[u8]) -> Option<Header> {
        let [1, 0, 2, v, n, ..] = file else {
            return None;
        };
        let fits = (1..=64).contains(v) && (1..=32).contains(n);
        fits.then_some(Header { v: *v, n: *n })
    }

    fn has_position(self, position: u8) -> bool {
        1 <= position && position <= self.v
    }

    // {1..n}.
    fn values(self) -> Values {
        Values::up_to(self.n)
    }

    // Whether an atom has a position up to v and values up to n.
    fn has_atom(self, atom: Atom) -> bool {
        self.has_position(atom.position) && atom.values.is_within(self.values())
    }

    // Whether an equality or an at-most rule has values up to n and up to 64 positions, each up to v.
    fn has_list(self, values: Values, positions: &[u8]) -> bool {
        positions.len() <= 64
            && values.is_within(self.values())
            && positions
                .iter()
                .all(|position| self.has_position(*position))
    }

    // Whether a rule is sound but for other fields. The set of a starting set is not empty.
    fn has_rule(self, rule: Rule<'_>) -> bool {
        match rule {
            Rule::Clause(mut atoms) => atoms.all(|atom| self.has_atom(atom)),
            Rule::Equality { values, positions } => self.has_list(values, positions),
            Rule::Start(atom) => self.has_atom(atom) && atom.values != Values::EMPTY,
            Rule::AtMost {
                count: _,
                values,
                positions,
            } => self.has_list(values, positions) && all_differ(positions),
        }
    }
}

// Whether no position stands twice.
fn all_differ(positions: &[u8]) -> bool {
    let mut places = positions.iter().enumerate();
    places.all(|(place, position)| !positions[..place].contains(position))
}

// A sound file: a header of 1 to 64 positions and 1 to 32 values, and behind it only clauses, equalities,
// starting sets and at-most rules, all of them whole, with positions up to v and values up to n; no starting
// set is empty, no position has two, and no at-most rule names a position twice.
#[derive(Drop)]
pub struct RuleFile<'a> {
    pub bytes: &'a [u8],
    pub v: u8,
    pub rules: Rules<'a>,
    // The starting sets of positions 1 to v (02, R-6).
    pub starts: ArrayVec<Values, 64>,
}

impl<'a> RuleFile<'a> {
    // Reads a file, where it is sound.
    pub(crate) fn read(bytes: &'a [u8]) -> Option<RuleFile<'a>> {
        let header = Header::of(bytes)?;
        let rules = sound_rules(bytes, header)?;
        let mut starts = ArrayVec::new();
        for position in 1..=header.v {
            let set = starting_set(&rules, position).unwrap_or(header.values());
            starts.try_push(set).ok()?;
        }
        Some(RuleFile {
            bytes,
            v: header.v,
            rules,
            starts,
        })
    }

    // Whether a clause, an equality or an at-most rule starts at a place. A starting set is none of these.
    pub(crate) fn is_rule(&self, place: usize) -> bool {
        let mut fields = Fields::of(self.bytes).filter_map(|field| field.ok());
        fields.any(|field| field.place == place && !field.is_start())
    }
}

// What the fields of a file say, where all of them are sound.
fn sound_rules(bytes: &[u8], header: Header) -> Option<Rules<'_>> {
    let mut rules = ArrayVec::new();
    for field in Fields::of(bytes) {
        let rule = field.ok()?.rule()?;
        if !header.has_rule(rule) || starts_again(&rules, rule) {
            return None;
        }
        rules.try_push(rule).ok()?;
    }
    Some(rules)
}

// The starting set that one of some rules gives a position.
fn starting_set(rules: &[Rule<'_>], position: u8) -> Option<Values> {
    rules.iter().find_map(|rule| match rule {
        Rule::Start(atom) if atom.position == position => Some(atom.values),
        _ => None,
    })
}

// Whether a rule is a starting set of a position that has one.
fn starts_again(rules: &[Rule<'_>], rule: Rule<'_>) -> bool {
    match rule {
        Rule::Start(atom) => starting_set(rules, atom.position).is_some(),
        _ => false,
    }
}
