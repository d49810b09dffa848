// Damaged files: cut off at every length, with a byte changed at every place, with a byte added at every
// place, and with each field once more at the end. A damaged file that is still sound is tried like any
// other.
ghost use Rattle.std.specs.Prelude.{◌≤◌, length};

use super::chance::Chance;
use super::compare::judge;
use super::reading::Fields;
use super::tally::Tally;
use super::writing::Bytes;
use arrayvec::CapacityError;

// Tries all damages of a file.
pub(crate) fn damaged(
    tally: &mut Tally,
    chance: &mut Chance,
    file: &[u8],
) -> Result<(), CapacityError> {
    for place in 0..=file.len() {
        damaged_at(tally, chance, file, place)?;
    }
    with_copies(tally, file)
}

// Tries the damages of a file at a place: cut off there, with the byte there changed, and with a byte from 0
// to 6 added before it, or at the end.
fn damaged_at(
    tally: &mut Tally,
    chance: &mut Chance,
    file: &[u8],
    place: usize,
) -> Result<(), CapacityError>
    requires { place ≤ length file.now }
{
    let (front, behind) = file.split_at(place);
    if let Some((old, rest)) = behind.split_first() {
        try_damaged(tally, front);
        with_changes(tally, chance, front, *old, rest)?;
    }
    let added = chance.draw(7);
    try_joined(tally, front, &[added], behind)
}

// Tries a damaged file.
fn try_damaged(tally: &mut Tally, file: &[u8]) {
    tally.damaged.add(1);
    judge(tally, file);
}

// Tries what three parts make together.
fn try_joined(
    tally: &mut Tally,
    front: &[u8],
    middle: &[u8],
    behind: &[u8],
) -> Result<(), CapacityError> {
    let mut file = Bytes::try_from(front)?;
    file.try_extend_from_slice(middle)?;
    file.try_extend_from_slice(behind)?;
    try_damaged(tally, &file);
    Ok(())
}

// Changes a byte between two parts of a file: once down by 1 to 5, once to any other byte, to 4 and to 5, the
// tags of a starting set and of an at-most rule, and to 0.
fn with_changes(
    tally: &mut Tally,
    chance: &mut Chance,
    front: &[u8],
    old: u8,
    behind: &[u8],
) -> Result<(), CapacityError> {
    let lower = old.wrapping_sub(5).wrapping_add(chance.draw(5));
    let other = old.wrapping_add(1).wrapping_add(chance.draw(255));
    for changed in [lower, other, 4, 5, 0] {
        try_joined(tally, front, &[changed], behind)?;
    }
    Ok(())
}

// Tries a file with each of its fields once more at the end.
fn with_copies(tally: &mut Tally, file: &[u8]) -> Result<(), CapacityError> {
    for field in Fields::of(file) {
        if let Ok(field) = field {
            with_copy(tally, file, field.bytes)?;
        }
    }
    Ok(())
}

// Tries a file with a field of it once more at the end: as it is, which doubles a starting set; with 0 as its
// last byte, which may leave a set empty; with 255 there, which may be above n or v; with the byte before it
// there, which may name a position twice; and with 0 as the first byte of its content too.
fn with_copy(tally: &mut Tally, file: &[u8], field: &[u8]) -> Result<(), CapacityError> {
    let [.., before, _] = field else {
        return Ok(());
    };
    let mut longer = Bytes::try_from(file)?;
    longer.try_extend_from_slice(field)?;
    try_damaged(tally, &longer);
    for last in [0, 255, *before] {
        if let Some(byte) = longer.last_mut() {
            *byte = last;
        }
        try_damaged(tally, &longer);
    }
    if let Some(first) = longer.get_mut(file.len().saturating_add(3)) {
        *first = 0;
    }
    try_damaged(tally, &longer);
    Ok(())
}
