// Files with an equality of many positions, a clause of many atoms, many starting sets or an at-most rule of
// many positions. Every byte that is not named here is 1.
ghost use Rattle.std.specs.Prelude.{◌≡◌, length};

use super::line::show;

// All of them, in this order.
pub(crate) fn all(rt: &impl Print) {
    long_equality(rt);
    long_clause(rt);
    longest_file(rt);
    starting_sets(rt);
    long_at_most(rt);
}

// A file of so many bytes: a header of v positions and 32 values, and the tag and the length of a field.
fn started<const BYTES: usize>(v: u8, tag: u8, high: u8, low: u8) -> [u8; BYTES] {
    let mut file = [1; BYTES];
    for (byte, named) in file.iter_mut().zip([1, 0, 2, v, 32, tag, high, low]) {
        *byte = named;
    }
    file
}

// An equality of 64 positions, the most that there may be, with the values 1, 9, 17 and 25. The last
// position is 64, and v too.
fn long_equality(rt: &impl Print) {
    let mut file = started::<76>(64, 3, 0, 68);
    file[75] = 64;
    // Length 68.
    show(rt, 308, &file);
    let mut longer = started::<77>(64, 3, 0, 69);
    longer[75] = 64;
    // Length 69, with position 1 at its end.
    show(rt, 309, &longer);
    file[75] = 65;
    // Length 68 again, with 65 as the last position.
    show(rt, 310, &file);
}

// A clause of 260 bytes, a length that needs its high byte: 52 times position 1 with the same
// four values.
fn long_clause(rt: &impl Print) {
    // It ends with the clause.
    show(rt, 311, &started::<268>(1, 2, 1, 4));
    // One byte more, at a place above 255.
    show(rt, 312, &started::<269>(1, 2, 1, 4));
}

// A file of 32,768 bytes, the most that an input may have: a clause of 6552 atoms like those.
fn longest_file(rt: &impl Print) {
    let mut file = started::<32768>(1, 2, 127, 248);
    // It is sound.
    show(rt, 313, &file);
    file[32763] = 2;
    // Position 2 in its last atom, where v is 1.
    show(rt, 314, &file);
}

// A field that gives a position the starting set of this mask.
fn starting_set(position: u8, mask: u8) -> [u8; 8] {
    [4, 0, 5, position, 0, 0, 0, mask]
}

// A file of v 64 and n 1: starting sets of the positions 1 to 64, of one value each, and this one more, at place 517.
fn all_started(more: [u8; 8]) -> [u8; 525]
    ensures { 525 ≡ length result }
{
    let mut file = [0; 525];
    file[..5].copy_from_slice(&[1, 0, 2, 64, 1]);
    let (fields, _) = file[5..].as_chunks_mut::<8>();
    let sets = (1..=64).map(|position| starting_set(position, 1));
    for (field, set) in fields.iter_mut().zip(sets.chain([more])) {
        *field = set;
    }
    file
}

// A starting set for every position, and one more.
fn starting_sets(rt: &impl Print) {
    // The 64 alone.
    show(rt, 315, &all_started(starting_set(1, 1))[..517]);
    // A second one for position 1, the first of all.
    show(rt, 316, &all_started(starting_set(1, 1)));
    // A second one for position 64, the one before it.
    show(rt, 317, &all_started(starting_set(64, 1)));
    // The same with the empty set.
    show(rt, 318, &all_started(starting_set(64, 0)));
}

// An at-most rule of the positions 1 to 64, the most that there may be, with the value 1. v is 64, and n 2.
fn long_at_most(rt: &impl Print) {
    let mut file = *b"\x01\0\x02\x40\x02\
      \x05\0\x45\x01\0\0\0\x01\
      \x01\x02\x03\x04\x05\x06\x07\x08\x09\x0a\x0b\x0c\x0d\x0e\x0f\x10\
      \x11\x12\x13\x14\x15\x16\x17\x18\x19\x1a\x1b\x1c\x1d\x1e\x1f\x20\
      \x21\x22\x23\x24\x25\x26\x27\x28\x29\x2a\x2b\x2c\x2d\x2e\x2f\x30\
      \x31\x32\x33\x34\x35\x36\x37\x38\x39\x3a\x3b\x3c\x3d\x3e\x3f\x40\
      \x01";
    // Length 69.
    show(rt, 319, &file[..77]);
    file[7] = 70;
    // Length 70, with position 1 once more at its end.
    show(rt, 320, &file);
    file[7] = 69;
    file[76] = 1;
    // Length 69 again, with position 1 as the first and as the last.
    show(rt, 321, &file[..77]);
    file[76] = 63;
    // Position 63 twice, at the end.
    show(rt, 322, &file[..77]);
    file[76] = 65;
    file[75] = 1;
    // Position 1 twice, and 65 as the last.
    show(rt, 323, &file[..77]);
}
