// Whether the bytes are a sound file: walks the fields, and refuses at the first fault with the field's
// place. The contracts cite Reading.antt of `rules`, specs/Checked.antt and specs/Promise.antt.
ghost use Rattle.std.specs.Prelude.{◌≡◌, ◌≤◌, length, drop, Ok, Err, MatchResult, IfOk};
ghost use Rattle.rules.specs.Fault.{number_told};
ghost use Rattle.rules.specs.Reading.{rule_at, tag_fault, body_fault, field_fault, seen_with, fault_after, header_body_fault, header_fault, read_fields};
ghost use Rattle.sound.specs.Checked.{LimitsIn, told_of, checked_of};
ghost use Rattle.sound.specs.Promise.{Checks};

use super::starts::seen_with;
use contents::content::{content_fault, length_fits, within};
use rules::fault::Fault;
use rules::field::{Tag, head_at};
use sets::Room;
use sets::marks::Marks;

// What a sound file is about: its number of positions and of values.
// Kept: v up to 64 is asked by four inner functions and is no invariant, since a type with one has private fields, and
// two methods to read them would be no plainer.
#[derive(Clone, Copy, PartialEq, Eq, Debug)]
pub struct Limits {
    pub positions: u32,
    pub values: u32,
}

// Why a file is not sound: the first fault, and the place of its field.
#[derive(Clone, Copy, PartialEq, Eq, Debug)]
pub struct Refused {
    pub fault: Fault,
    pub place: usize,
}

// The largest number of positions, as wide as a byte of the header is read.
const POSITIONS: u32 = Room::POSITIONS as u32;

// What a test told of the field at a place: a fault is a refusal there.
fn at_place<T>(told: Result<T, Fault>, place: usize) -> Result<T, Refused>
    ensures { MatchResult told (λ x. result ≡ Ok x) (λ fault. result ≡ Err (record { fault = fault; place = place })) }
{
    told.map_err(|fault| Refused { fault, place })
}

// Whether the tag of a field behind the header is one: no second header, and no tag that is not known.
fn tag_fault(kind: Tag) -> Result<(), Fault>
    ensures { number_told result ≡ tag_fault kind }
{
    match kind {
        Tag::Header => Err(Fault::SecondHeader),
        Tag::Clause | Tag::Equality | Tag::Starting | Tag::AtMost => Ok(()),
        Tag::Unknown => Err(Fault::UnknownTag),
    }
}

// The first fault behind a field's head.
fn body_fault(bytes: &[u8], kind: Tag, len: usize, limits: Limits) -> Result<(), Fault>
    requires { limits.positions ≤ 64 }
    ensures { number_told result ≡ body_fault limits.positions limits.values kind len bytes.now }
{
    if !length_fits(kind, len) {
        return Err(Fault::WrongLength);
    }
    match bytes.get(..len) {
        Some(content) => content_fault(content, kind, limits.positions, limits.values),
        None => Err(Fault::CutOff),
    }
}

// The first fault of the field that the bytes start with.
fn field_fault(bytes: &[u8], limits: Limits) -> Result<(), Fault>
    requires { limits.positions ≤ 64 }
    ensures { number_told result ≡ field_fault limits.positions limits.values bytes.now }
{
    if bytes.len() < 3 {
        return Err(Fault::CutOff);
    }
    let head = head_at(bytes, 0);
    let kind = Tag::from(head.tag);
    tag_fault(kind)?;
    body_fault(&bytes[3..], kind, head.length, limits)
}

// The limits of a file, or the first fault behind the header's own head.
fn header_body_fault(input: &[u8], len: usize) -> Result<Limits, Fault>
    ensures told { number_told result ≡ header_body_fault len input.now }
    ensures read { IfOk result (LimitsIn input.now) }
{
    if len != 2 {
        return Err(Fault::WrongLength);
    }
    if input.len() < 5 {
        return Err(Fault::CutOff);
    }
    let positions = u32::from(input[3]);
    let values = u32::from(input[4]);
    if !within(POSITIONS, positions) {
        return Err(Fault::WrongLimits);
    }
    if !within(Room::VALUES, values) {
        return Err(Fault::WrongLimits);
    }
    Ok(Limits { positions, values })
}

// The limits of a file, or the first fault of its header.
fn header_fault(input: &[u8]) -> Result<Limits, Fault>
    ensures told { number_told result ≡ header_fault input.now }
    ensures read { IfOk result (LimitsIn input.now) }
{
    if input.is_empty() {
        return Err(Fault::NoHeader);
    }
    if input.len() < 3 {
        return Err(Fault::CutOff);
    }
    let head = head_at(input, 0);
    let Tag::Header = Tag::from(head.tag) else {
        return Err(Fault::NoHeader);
    };
    header_body_fault(input, head.length)
}

// The marks once the field that the bytes start with was read, or its first fault, where the marked positions
// have a starting set in front of it.
fn fault_after(bytes: &[u8], limits: Limits, seen: Marks) -> Result<Marks, Fault>
    requires { limits.positions ≤ 64 }
    ensures told { number_told result ≡ fault_after limits.positions limits.values seen bytes.now }
    ensures marked { IfOk result (λ more. more ≡ seen_with (rule_at bytes.now) seen) }
{
    field_fault(bytes, limits)?;
    seen_with(bytes, seen)
}

// Walks the fields behind the header, with marks on the positions that have a starting set.
fn check_fields(input: &[u8], limits: Limits) -> Result<Limits, Refused>
    requires { (5 ≤ length input.now) × (limits.positions ≤ 64) }
    ensures { told_of result ≡ checked_of (read_fields (length input.now) limits.positions limits.values 0 5 (drop 5 input.now)) }
{
    let mut seen = Marks::none();
    let mut at = 5;
    // Kept: no plainer as an iterator. `fields` ends in silence where a field is cut off, and a refusal names
    // its place.
    while at < input.len() {
        let bytes = &input[at..];
        seen = at_place(fault_after(bytes, limits, seen), at)?;
        at += 3 + head_at(bytes, 0).length;
    }
    Ok(limits)
}

// Whether the input is a sound file, for every input: its number of positions and of values, or
// the first fault in 01's order of tests with the place of its field.
pub fn check(input: &[u8]) -> Result<Limits, Refused>
    ensures { Checks input.now result }
{
    let limits = at_place(header_fault(input), 0)?;
    check_fields(input, limits)
}
