// Prints the result of every operation of `Room` on a list of vectors, a line for each: the
// operation, its arguments and its result, with single spaces. A set stands in a line as its mask. A line that
// cannot be written is passed over.
//
// The file `stdout` beside src/ has the lines that are right. It was made by other means, from sets
// of values and without bit operations, so that it shows whether the proved contracts of `sets`,
// and the code compiled from it, say what was meant.
#![tactic(auto)]

use sets::Room;

// The sets that each operation is tried on: the empty and the whole set, sets at both ends of 1 to
// 32 and in its middle, sets that are each other's complement, and sets with no pattern.
const MASKS: [u32; 20] = [
    0x0000_0000, // empty
    0xffff_ffff, // 1 to 32
    0x0000_0001, // 1
    0x0000_0002, // 2
    0x8000_0000, // 32
    0x4000_0000, // 31
    0x8000_0001, // 1 and 32
    0x0000_0003, // 1 and 2
    0x7fff_ffff, // 1 to 31
    0x5555_5555, // the odd values
    0xaaaa_aaaa, // the even values
    0x0000_f00f, // 1 to 4 and 13 to 16
    0xdead_beef,
    0x1234_5678,
    0x0000_0005, // 1 and 3
    0x0000_ffff, // 1 to 16
    0xffff_0000, // 17 to 32
    0x0001_8000, // 16 and 17
    0xffff_fffe, // 2 to 32
    0xc000_0000, // 31 and 32
];

// The numbers that stand for the size of a set or for a value: those about both ends of 1 to 32,
// where an answer changes, one in the middle, and the largest.
const NUMBERS: [u32; 9] = [0, 1, 2, 3, 16, 31, 32, 33, 4_294_967_295];

fn main(rt: HostRuntime) {
    try_numbers(&rt);
    try_sets(&rt);
}

// The operations that make a set of a number, at each number: as the size of a set, and as its only value.
fn try_numbers(rt: &impl Print) {
    for n in NUMBERS {
        let _ = println!(rt; "full {n} {}", u32::from(Room::full(n)));
        let _ = println!(rt; "single {n} {}", u32::from(Room::single(n)));
    }
}

// The operations that start from a set, at each set: alone, within each number and with each set.
fn try_sets(rt: &impl Print) {
    for mask in MASKS {
        let set = Room::from(mask);
        let _ = println!(rt; "count {mask} {}", set.count());
        let _ = println!(rt; "smallest {mask} {}", set.smallest());
        try_complements(rt, mask);
        try_pairs(rt, mask);
    }
}

// The complement of one set within each number. The line names the set first and then the number.
fn try_complements(rt: &impl Print, mask: u32) {
    let set = Room::from(mask);
    for n in NUMBERS {
        let _ = println!(rt; "complement {mask} {n} {}", u32::from(set.complement(n)));
    }
}

// The operations on two sets, in this order: one set with each set, itself too. As this is called for
// each set, every pair is tried in both orders.
fn try_pairs(rt: &impl Print, a: u32) {
    let first = Room::from(a);
    for b in MASKS {
        let second = Room::from(b);
        let _ = println!(rt; "union {a} {b} {}", u32::from(first.union(second)));
        let _ = println!(rt; "common {a} {b} {}", u32::from(first.common(second)));
        let _ = println!(rt; "inside {a} {b} {}", first.inside(second));
    }
}
