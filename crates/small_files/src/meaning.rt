// The first assignment that meets all rules of a sound file, found by going through all assignments
// inside its starting sets in dictionary order. Written from 01's section "What rules mean" and 02's R-6 and
// R-12 alone; nothing of the planner is used.
use super::buffer::Buffer;
use super::reading::{Atom, Rule};
use super::rule_file::RuleFile;
use super::values::Values;

// How many assignments are gone through at most.
pub const MANY: usize = 4096;

impl Atom {
    // Whether the position has its value in the atom's set.
    fn is_met(self, assignment: &Buffer) -> bool {
        assignment.has_inside(self.position, self.values)
    }
}

impl Rule<'_> {
    // Whether an assignment meets the rule: some atom of a clause is met; the values that an equality's
    // positions take are exactly its set; a starting set is met as a clause of one atom is; no more of an
    // at-most rule's positions take a value in its set than its count says.
    fn is_met(self, assignment: &Buffer) -> bool {
        match self {
            Rule::Clause(mut atoms) => atoms.any(|atom| atom.is_met(assignment)),
            Rule::Equality { values, positions } => taken(positions, assignment) == values,
            Rule::Start(atom) => atom.is_met(assignment),
            Rule::AtMost {
                count,
                values,
                positions,
            } => counted(positions, values, assignment) <= usize::from(count),
        }
    }
}

// The values that positions take.
fn taken(positions: &[u8], assignment: &Buffer) -> Values {
    positions
        .iter()
        .filter_map(|position| assignment.value_of(*position))
        .fold(Values::EMPTY, |taken, value| taken.with(value))
}

// How many positions take a value in a set.
fn counted(positions: &[u8], values: Values, assignment: &Buffer) -> usize {
    positions
        .iter()
        .filter(|position| assignment.has_inside(**position, values))
        .count()
}

// Assignments inside starting sets, in dictionary order.
#[derive(Drop)]
pub struct Assignments<'a> {
    starts: &'a [Values],
    next: Option<Buffer>,
}

impl<'a> Assignments<'a> {
    pub(crate) fn of(starts: &'a [Values]) -> Assignments<'a> {
        Assignments {
            starts,
            next: Some(Buffer::lowest(starts)),
        }
    }
}

impl<'a> Iterator for Assignments<'a> {
    type Item = Buffer;

    fn next(&mut self) -> Option<Buffer> {
        let assignment = self.next?;
        self.next = assignment.next(self.starts);
        Some(assignment)
    }
}

impl RuleFile<'_> {
    // Whether an assignment meets every rule.
    pub(crate) fn is_met(&self, assignment: &Buffer) -> bool {
        self.rules.iter().all(|rule| rule.is_met(assignment))
    }

    // The number of assignments inside the starting sets, which is the product of their sizes; the largest
    // number where it is larger.
    pub(crate) fn assignments(&self) -> u64 {
        self.starts.iter().fold(
            1,
            |product, start| product.saturating_mul(u64::from(start.size())),
        )
    }

    // The first of the assignments gone through that meets every rule.
    pub(crate) fn first_plan(&self) -> Option<Buffer> {
        Assignments::of(&self.starts)
            .take(MANY)
            .find(|assignment| self.is_met(assignment))
    }

    // Whether a plan is at no position higher than any other, of those among the assignments gone through.
    pub(crate) fn is_least(&self, plan: &Buffer) -> bool {
        Assignments::of(&self.starts).take(MANY).all(|other| !self.is_met(&other)
            || plan.is_nowhere_higher(&other))
    }

    // The most rounds of a first box: the sum over positions of starting size less one, plus one (02, R-10).
    // No starting set is empty.
    pub(crate) fn most_rounds(&self) -> u64 {
        self.starts.iter().fold(1, |most: u64, start| {
            most.saturating_add(u64::from(start.size()).saturating_sub(1))
        })
    }
}
