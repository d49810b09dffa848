// A reply as the text that the program prints. The contracts cite specs/Text.antt and
// specs/Printed.antt.
ghost use Rattle.std.specs.Prelude.{◌++◌, ◌∷◌, []};
ghost use Rattle.texts.specs.Grown.{line_of};
ghost use Rattle.texts.specs.Promise.{Grows};
ghost use Rattle.texts.specs.Bytes.{behind};
ghost use Rattle.lines.specs.Text.{first_line, none_line};
ghost use Rattle.lines.specs.Printed.{Shown};

use searching::reply::Reply;
use sets::Room;
use texts::Text;

// A word and two numbers, the line not yet ended.
fn begun(word: &[u8], first: u64, second: u64) -> Text
    ensures { Grows (line_of []) (word.now ++ behind (first ∷ second ∷ [])) result }
{
    let mut line = Text::new();
    line.word(word);
    line.behind(first);
    line.behind(second);
    line
}

// The line of a word and two numbers.
fn first_line(word: &[u8], first: u64, second: u64) -> Text
    ensures { Grows (line_of []) (first_line word.now (first ∷ second ∷ [])) result }
{
    let mut line = begun(word, first, second);
    line.byte(b'\n');
    line
}

// The line of a NONE: its counts, and behind them its place where it has one.
fn none_line(splits: u64, dead_ends: u64, place: u64) -> Text
    ensures { Grows (line_of []) (none_line splits dead_ends place) result }
{
    let mut counts = begun(b"NONE", splits, dead_ends);
    if place != 0 {
        counts.behind(place);
    }
    counts.byte(b'\n');
    counts
}

// What the program prints for a reply, where the first v values are a plan's.
// Kept: v beside the values, since any v is taken, as `Shown` says, and a slice of v values asks that v fits.
pub fn text(reply: Reply, values: &[u8; Room::POSITIONS], v: usize) -> Text
    ensures { Shown reply values.now v result }
{
    let Reply {
        number,
        place,
        splits,
        dead_ends,
        ..
    } = reply;
    match number {
        Reply::PLAN => {
            let mut text = first_line(b"PLAN", splits, dead_ends);
            text.values(values, v);
            text
        }
        Reply::NONE => none_line(splits, dead_ends, place as u64),
        Reply::UNDECIDED => first_line(b"UNDECIDED", splits, dead_ends),
        _ => first_line(b"REFUSED", number as u64, place as u64),
    }
}
