// The line that is printed for one file.
use sound::check::check;

// Checks a file and prints its line, which starts with the file's number in the list: the verdict, and its two
// numbers. A line that cannot be written is passed over.
pub(crate) fn show(rt: &impl Print, number: u64, file: &[u8]) {
    let _ = match check(file) {
        Ok(limits) => println!(rt; "{number} SOUND {} {}", limits.positions, limits.values),
        Err(refused) => println!(rt;
            "{number} REFUSED {} {}",
            u32::from(refused.fault),
            refused.place
        ),
    };
}
