// A box: the rooms of the positions 1 to v. The contracts cite specs/Held.antt and the boxes of the crate `steps`.
#![tactic(auto)]

ghost use Rattle.std.specs.Prelude.{◌≡◌, ◌-◌, ◌<◌, ◌≤◌, ◌++◌, length, take, drop, set, replicate};
ghost use Rattle.steps.specs.Boxes.{room_at, with_room};
ghost use Rattle.rooms.specs.Held.{Held, with_box};

use sets::Room;
use std::marker::Model;

// The rooms of v positions, copied by value, in an array of 64. Contracts see them as the box of the first v
// rooms, and the rest of the array, which plays no part.
// Kept: an array with a length, since rooms have no heap, and what is behind the first v is part of what is promised.
#[derive(Clone, Copy)]
pub struct Rooms {
    rooms: [Room; Room::POSITIONS],
    positions: usize,
}

impl Model for Rooms {
    ghost use Rattle.std.specs.Prelude.{◌≡◌, ◌++◌, ◌≤◌, length, take, drop};
    ghost use Rattle.rooms.specs.Held.{Held};

    ghost Value = { Held };

    ghost view = { λ held. record { box = take held.positions held.rooms; rest = drop held.positions held.rooms } };

    ghost invariant = { λ held. (held.positions ≤ 64) × (length held.rooms ≡ 64) };

    ghost inverse = { λ value. record { rooms = value.box ++ value.rest; positions = length value.box } };

    ghost use Rattle.rooms.specs.Whole.{given_back};

    ghost inverse_ok = { given_back };
}

// The whole array: the rooms of the positions and the rest.
impl From<Rooms> for [Room; Room::POSITIONS] {
    ghost from_gives = { λ held array. array ≡ held.box ++ held.rest };

    fn from(held: Rooms) -> [Room; Room::POSITIONS] {
        held.rooms
    }
}

impl Rooms {
    // The rooms of an array, of which the first so many are those of positions.
    pub fn of(rooms: [Room; Room::POSITIONS], positions: usize) -> Rooms
        requires { positions ≤ 64 }
        ensures { result ≡ record { box = take positions rooms; rest = drop positions rooms } }
    {
        Rooms { rooms, positions }
    }

    // The number of positions.
    pub fn positions(&self) -> usize
        ensures { result ≡ length self.now.box }
    {
        self.positions
    }

    // The rooms of the positions, in turn.
    pub fn as_slice(&self) -> &[Room]
        ensures { result.now ≡ self.now.box }
    {
        &self.rooms[..self.positions]
    }

    // The room of a position.
    pub fn at(&self, position: u32) -> Room
        requires { (1 ≤ position) × (position ≤ length self.now.box) }
        ensures { result ≡ room_at self.now.box position }
    {
        self.rooms[position as usize - 1]
    }

    // Puts another room in the place of a position's.
    pub fn put(&mut self, position: u32, room: Room)
        requires { (1 ≤ position) × (position ≤ length self.old.box) }
        ensures { self.new ≡ with_box (with_room self.old.box position room) self.old }
    {
        self.set(position as usize - 1, room);
    }

    // Puts another room in the place of the one at an index.
    pub fn set(&mut self, i: usize, room: Room)
        requires { i < length self.old.box }
        ensures { self.new ≡ with_box (set self.old.box i room) self.old }
    {
        prove!(i < self.positions);
        self.rooms[i] = room;
    }

    // Leaves no room a value.
    pub fn clear(&mut self)
        ensures { self.new ≡ record { box = replicate (length self.old.box) 0; rest = replicate (64 - length self.old.box) 0 } }
    {
        *self = Rooms::of([Room::EMPTY; Room::POSITIONS], self.positions);
    }
}
