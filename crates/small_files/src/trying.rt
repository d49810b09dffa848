// Makes the files, family by family, and tries each.
use super::asking::Verdict;
use super::chance::Chance;
use super::compare::{judge, judge_read};
use super::damage::damaged;
use super::drawn::Drawn;
use super::limits::{allowances, buffers, largest_allowances};
use super::rule_file::RuleFile;
use super::systematic::Systematic;
use super::tally::Tally;
use super::writing::Bytes;
use arrayvec::CapacityError;

// A family of files.
pub trait Family {
    // How many files it has.
    fn size(&self) -> u32;

    // The file with a number, or one that is drawn.
    fn file(&self, chance: &mut Chance, number: u32) -> Result<Bytes, CapacityError>;
}

// All families. The pseudo-random numbers go on from file to file.
pub(crate) fn all(tally: &mut Tally) {
    let mut chance = Chance { state: 20_251 };
    for family in Systematic::ALL {
        every(tally, &mut chance, &family);
    }
    for family in Drawn::ALL {
        every(tally, &mut chance, &family);
    }
}

// Every file of a family. One that is longer than there is room for is a difference.
fn every<F: Family>(tally: &mut Tally, chance: &mut Chance, family: &F) {
    for number in 0..family.size() {
        if one(tally, chance, family, number).is_err() {
            tally.expect(false, "too long:", b"");
        }
    }
}

// Makes a file of a family, the one with a number or one that is drawn, and tries it. Every hundredth is tried
// at the limits and damaged too.
fn one<F: Family>(
    tally: &mut Tally,
    chance: &mut Chance,
    family: &F,
    number: u32,
) -> Result<(), CapacityError> {
    let file = family.file(chance, number)?;
    try_file(tally, &file);
    if number % 100 == 0 {
        try_limits(tally, &file);
        damaged(tally, chance, &file)?;
    }
    Ok(())
}

// Tries a file that has to be sound: with the largest allowance, and with the small ones. Where it has
// too many assignments, and was allowed too few splits for them, no other allowance is tried.
fn try_file(tally: &mut Tally, file: &[u8]) {
    tally.files.add(1);
    let read = RuleFile::read(file);
    tally.expect(read.is_some(), "not sound:", file);
    let full = judge_read(tally, file, &read);
    if full.verdict != Verdict::Undecided {
        allowances(tally, file, full);
    }
}

// Tries a file with all lengths of the answer buffer and with allowances about the limit, where it did
// not need more splits than it was allowed.
fn try_limits(tally: &mut Tally, file: &[u8]) {
    let full = judge(tally, file);
    if full.verdict != Verdict::Undecided {
        buffers(tally, file, full);
        largest_allowances(tally, file, full);
    }
}
