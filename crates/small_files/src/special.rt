// Demand 3's special kind, with starting sets (02, R-6): every rule is a clause, and of its positions at most
// one has a united set that does not count as {1..b}. A set does if, with each starting value of the
// position in it, all smaller starting values are in it too. Tag 4 fields may stand in such a file; an
// equality or an at-most rule (R-12) puts it outside, even one that is always met.
//
// With v or more splits allowed the reply to such a file is NONE at no split, or a plan at no dead end
// that is at no position higher than any other plan.
use super::asking::{Seen, Verdict};
use super::compare::FEW;
use super::reading::{Atoms, Rule};
use super::rule_file::RuleFile;
use super::values::Values;

// The union of a position's sets in a clause.
fn united(atoms: Atoms<'_>, position: u8) -> Values {
    atoms
        .filter(|atom| atom.position == position)
        .fold(Values::EMPTY, |set, atom| set.union(atom.values))
}

// Whether at most one position of a clause has a united set that does not count as {1..b}.
fn is_special_clause(atoms: Atoms<'_>, starts: &[Values]) -> bool {
    let others = starts.iter().zip(1u8..=64).filter(|(start, position)| {
        let set = united(atoms, *position);
        !set.is_ladder(**start)
    });
    others.count() <= 1
}

impl RuleFile<'_> {
    // Whether the file is of the special kind.
    pub(crate) fn is_special(&self) -> bool {
        self.rules.iter().all(|rule| match rule {
            Rule::Clause(atoms) => is_special_clause(*atoms, &self.starts),
            Rule::Start(_) => true,
            Rule::Equality { .. } | Rule::AtMost { .. } => false,
        })
    }

    // Whether a reply to the file, of the special kind, is as claimed. UNDECIDED is only right where fewer
    // than v splits were allowed.
    pub(crate) fn is_claimed(&self, seen: &Seen) -> bool {
        let v = u64::from(self.v);
        match seen.verdict {
            Verdict::Plan => seen.dead_ends == 0 && seen.splits <= v && self.is_least(&seen.left),
            Verdict::NoPlan => seen.splits == 0,
            Verdict::Undecided | Verdict::Refused(_) => FEW < v,
        }
    }
}
