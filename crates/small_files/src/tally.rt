// What is counted while the files are tried, and what is printed of it.
use super::asking::Verdict;
use searching::reply::Reply;
use std::fmt;
use std::io::{Print, Stdout};

// A number of things, or the sum of some numbers. It stops at the largest number, which none comes near.
#[derive(Clone, Copy)]
pub struct Count(u64);

impl Count {
    pub(crate) fn add(&mut self, more: u64) {
        self.0 = self.0.saturating_add(more);
    }
}

impl fmt::Display for Count {
    fn fmt<W: fmt::Write>(&self, f: &mut fmt::Formatter<W>) -> fmt::Result {
        let count = self.0;
        write!(f, "{count}")
    }
}

// The checksum of the five numbers of every reply, in the order of the calls.
#[derive(Clone, Copy)]
struct Checksum(u32);

impl Checksum {
    // The checksum is kept below this.
    const MODULUS: u64 = 4_294_967_296;

    // What the checksum is multiplied by before a number is added. It is odd, so that no number that
    // differs is lost again behind it.
    const FACTOR: u64 = 1_000_003;

    // Takes one number more in, behind all that were taken before. By the 1 a number 0 counts too.
    fn append(&mut self, number: u64) {
        let sum = u64::from(self.0) * Checksum::FACTOR + number % Checksum::MODULUS + 1;
        self.0 = (sum % Checksum::MODULUS) as u32;
    }
}

// What did not hold of a file, and the bytes of the file.
#[derive(Clone, Copy)]
struct Difference<'a> {
    what: &'a str,
    file: &'a [u8],
}

impl fmt::Display for Difference<'_> {
    fn fmt<W: fmt::Write>(&self, f: &mut fmt::Formatter<W>) -> fmt::Result {
        let what = self.what;
        write!(f, "{what}")?;
        for byte in self.file {
            write!(f, " {byte}")?;
        }
        Ok(())
    }
}

// Whether a reply with a number is right for some call that is made here: a plan, NONE, UNDECIDED, and refusals
// of what is given and of files.
fn is_tried(number: u32) -> bool {
    matches!(number, 0..=2 | 10..=20 | 26 | 27 | 36)
}

// The counts, and where they are printed.
#[derive(Drop)]
pub struct Tally {
    output: Stdout,
    // Files that were made, each of them sound.
    pub files: Count,
    // Files with a byte changed, cut off or added.
    pub damaged: Count,
    // Replies to sound files of the special kind, with what was claimed of them compared.
    pub special: Count,
    // How many replies with each number up to 63 there were. 01 and 02 have none above 36.
    replies: [Count; 64],
    // The sums of the splits, the dead ends, the places and the rounds of all replies.
    splits: Count,
    dead_ends: Count,
    places: Count,
    rounds: Count,
    checksum: Checksum,
    // What was compared: every reply, and that every file that was made is sound.
    comparisons: Count,
    // Comparisons that showed a difference.
    differences: Count,
}

impl Tally {
    // Before the first file.
    pub(crate) fn new(output: Stdout) -> Tally {
        Tally {
            output,
            files: Count(0),
            damaged: Count(0),
            special: Count(0),
            replies: [Count(0); 64],
            splits: Count(0),
            dead_ends: Count(0),
            places: Count(0),
            rounds: Count(0),
            checksum: Checksum(0),
            comparisons: Count(0),
            differences: Count(0),
        }
    }

    // Counts a reply: its number, the sums, and all five numbers in the checksum.
    pub(crate) fn count(&mut self, reply: &Reply) {
        if let Some(count) = self.replies.get_mut(reply.number as usize) {
            count.add(1);
        }
        let place = reply.place as u64;
        self.splits.add(reply.splits);
        self.dead_ends.add(reply.dead_ends);
        self.places.add(place);
        self.rounds.add(reply.rounds);
        let number = u64::from(reply.number);
        for number in [number, place, reply.splits, reply.dead_ends, reply.rounds] {
            self.checksum.append(number);
        }
    }

    // Counts a comparison, and a difference where it did not hold. What was compared and the bytes of the first
    // file with a difference are printed at once.
    pub(crate) fn expect(&mut self, holds: bool, what: &str, file: &[u8]) {
        self.comparisons.add(1);
        if holds {
            return;
        }
        if self.differences.0 == 0 {
            let difference = Difference { what, file };
            let _ = println!(self.output; "{difference}");
        }
        self.differences.add(1);
    }

    // Prints a line for each count. A number that no reply should have has one where a reply had it.
    pub(crate) fn print(&self) {
        self.print_count("files", self.files);
        self.print_count("damaged files", self.damaged);
        self.print_count("of the special kind", self.special);
        for (count, number) in self.replies.iter().zip(0..64) {
            if is_tried(number) || 0 < count.0 {
                self.print_count(Verdict::from(number), *count);
            }
        }
        self.print_count("splits", self.splits);
        self.print_count("dead ends", self.dead_ends);
        self.print_count("places", self.places);
        self.print_count("rounds", self.rounds);
        self.print_count("checksum", Count(u64::from(self.checksum.0)));
        self.print_count("comparisons", self.comparisons);
        self.print_count("differences", self.differences);
    }

    // Prints a count behind what it counts. A line that cannot be written is passed over.
    fn print_count<N: fmt::Display + Drop>(&self, name: N, count: Count) {
        let _ = println!(self.output; "{name} {count}");
    }
}
