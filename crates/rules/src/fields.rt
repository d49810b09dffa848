// The fields of a file, gone through one after another. The contracts cite specs/Each.antt.
ghost use Rattle.std.specs.Prelude.{◌≡◌, ◌+◌, ◌≤◌, length, drop};
ghost use Rattle.std.specs.Iterator.{YieldsFirstBy, item_count};
ghost use Rattle.rules.specs.Each.{Framed, frames_in};

use super::field::{Tag, head_at};
use std::marker::Model;

// A field as it stands in the bytes of a file: the offset of its tag byte, its kind and its content.
#[derive(Clone, Copy)]
pub struct FieldBytes<'a> {
    pub place: usize,
    pub kind: Tag,
    pub content: &'a [u8],
}

// The fields that are still to come: those from a place on. Contracts see them as the list of these.
#[derive(Drop)]
pub struct EachField<'a> {
    input: &'a [u8],
    at: usize,
}

impl<'a> Model for EachField<'a> {
    ghost use Rattle.std.specs.Prelude.{List, ◌+◌, ◌≤◌, length, drop};
    ghost use Rattle.rules.specs.Each.{Framed, frames_from};

    ghost Value = { List Framed };

    ghost view = { λ fields. frames_from fields.at (drop fields.at fields.input.now) };

    ghost invariant = { λ fields. fields.at ≤ length fields.input.now + 5 };
}

// All fields behind the header of a file. They end where no field stands whole, so that of a sound file there
// are all.
pub fn fields(input: &[u8]) -> EachField<'_>
    ensures { result ≡ frames_in input.now }
{
    EachField { input, at: 5 }
}

impl<'a> Iterator for EachField<'a> {
    type Item = FieldBytes<'a>;

    ghost next_gives = { YieldsFirstBy (λ f. record { place = f.place; kind = f.kind; content = f.content.now }) (λ fields. fields) };

    ghost remaining = { item_count (λ fields. fields) };

    fn next(&mut self) -> Option<FieldBytes<'a>> {
        let from = self.at + 3;
        if self.input.len() < from {
            return None;
        }
        let head = head_at(self.input, self.at);
        let end = from + head.length;
        if self.input.len() < end {
            return None;
        }
        let field = FieldBytes {
            place: self.at,
            kind: Tag::from(head.tag),
            content: &self.input[from..end],
        };
        self.at = end;
        Some(field)
    }
}
