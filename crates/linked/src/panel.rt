// The set arithmetic of the front panel. C gives and takes a set as its mask, and each function works on the
// `Room` with that mask. The contracts are those of `sets`, by specs/Promise.antt of that crate.
// Kept: a set is a `u32` in every signature, as the C interface has it.
ghost use Rattle.sets.specs.Promise.{Full, Single, Union, Common, Inside, Complement, Count, Smallest};

use sets::Room;

// The set {1..n}; the empty set where n is not 1 to 32.
#[unsafe(no_mangle)]
pub extern "C" fn oarloom_full(n: u32) -> u32
    ensures { Full n result }
{
    u32::from(Room::full(n))
}

// The set {x}; the empty set where x is not 1 to 32.
#[unsafe(no_mangle)]
pub extern "C" fn oarloom_single(x: u32) -> u32
    ensures { Single x result }
{
    u32::from(Room::single(x))
}

// The values that are in either set.
#[unsafe(no_mangle)]
pub extern "C" fn oarloom_union(a: u32, b: u32) -> u32
    ensures { Union a b result }
{
    u32::from(Room::from(a).union(Room::from(b)))
}

// The values that are in both sets.
#[unsafe(no_mangle)]
pub extern "C" fn oarloom_common(a: u32, b: u32) -> u32
    ensures { Common a b result }
{
    u32::from(Room::from(a).common(Room::from(b)))
}

// Whether every value of a is in b.
#[unsafe(no_mangle)]
pub extern "C" fn oarloom_inside(a: u32, b: u32) -> bool
    ensures { Inside a b result }
{
    Room::from(a).inside(Room::from(b))
}

// The values of {1..n} that are not in a; the empty set where n is not 1 to 32.
#[unsafe(no_mangle)]
pub extern "C" fn oarloom_complement(a: u32, n: u32) -> u32
    ensures { Complement n a result }
{
    u32::from(Room::from(a).complement(n))
}

// The number of values in a.
#[unsafe(no_mangle)]
pub extern "C" fn oarloom_count(a: u32) -> u32
    ensures { Count a result }
{
    Room::from(a).count()
}

// The smallest value in a; 0 where a is empty.
#[unsafe(no_mangle)]
pub extern "C" fn oarloom_smallest(a: u32) -> u32
    ensures { Smallest a result }
{
    Room::from(a).smallest()
}
