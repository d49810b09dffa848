// A reply in words, for people: where a refusal stands in the file and what is wrong there, and which
// field cannot be met where there is no plan. The contracts cite specs/Words.antt.
#![tactic(auto)]

ghost use Rattle.std.specs.Prelude.{◌≡◌};
ghost use Rattle.texts.specs.Grown.{line_of};
ghost use Rattle.texts.specs.Promise.{Grows};
ghost use Rattle.reasons.specs.Words.{around, fault_of, place_of, words_of, unmet_of, Reasoned};

use searching::reply::Reply;
use texts::Text;

// What is wrong, by 01's number: 10 to 20, 26, 27 and 36. No reply has another, and nothing is said of
// these.
fn fault(number: u32) -> &'static [u8]
    ensures { result.now ≡ fault_of number }
{
    match number {
        10 => b"the input is longer than 32768 bytes",
        11 => b"the answer buffer is shorter than 64 bytes",
        12 => b"the allowance is above 1000000 splits",
        13 =>
            b"the input ends within a tag and length, or before the bytes that a length announces",
        14 => b"the input is empty, or its first tag is not 1 (header)",
        15 => b"a second header",
        16 => b"a tag that is not known",
        17 => b"a length that is wrong for the tag",
        18 =>
            b"a number of channels that is not 1 to 64, or a number of relays that is not 1 to 32",
        19 => b"a position that is 0 or above the number of channels",
        20 => b"a set with a value above the number of relays",
        26 => b"a starting set that is empty",
        27 => b"a second starting set for its position",
        36 => b"a position that is named twice",
        _ => b"",
    }
}

// A place with words around it more.
fn around(text: &mut Text, front: &[u8], place: usize, back: &[u8])
    ensures { Grows text.old (around front.now place back.now) text.new }
{
    text.word(front);
    text.number(place as u64);
    text.word(back);
}

// The place of a refusal more, where it is a field's.
fn placed(text: &mut Text, number: u32, place: usize)
    ensures { Grows text.old (place_of number place) text.new }
{
    if 13 <= number && number != 14 {
        around(text, b"field at byte ", place, b": ");
    }
}

// The line of a refusal in words.
fn words(number: u32, place: usize) -> Text
    ensures { result ≡ line_of (words_of number place) }
{
    let mut line = Text::new();
    placed(&mut line, number, place);
    line.word(fault(number));
    line.byte(b'\n');
    line
}

// The line of a NONE in words: which field cannot be met; no text where it has no place.
fn unmet(place: usize) -> Text
    ensures { result ≡ line_of (unmet_of place) }
{
    let mut line = Text::new();
    if place != 0 {
        around(
            &mut line,
            b"the field at byte ",
            place,
            b" cannot be met by what the rules leave open\n",
        );
    }
    line
}

// What is said of a reply with this number and place, as a line of words: why it refuses, or which field
// cannot be met; no text where there is nothing to say.
// Kept: the number and the place of a reply: `Reasoned` speaks of every two, and an enum of the refusals, or an
// `Option` of a place, would ask more of callers.
pub fn reason(number: u32, place: usize) -> Text
    ensures { Reasoned number place result }
{
    match number {
        Reply::NONE => unmet(place),
        10.. => words(number, place),
        _ => Text::new(),
    }
}
