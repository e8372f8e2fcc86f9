// Lent lists: "After a refusal all lent output is zero", "and so are output entries past the answer".
#![tactic(auto)]

ghost use Rattle.std.specs.Prelude.{◌≡◌, length, take, replicate, pos};
ghost use Rattle.definitions.specs.Refusal.{padded};
ghost use Rattle.definitions.specs.Real.{zero_f};
ghost use Rattle.definitions.specs.Lists.{any};
ghost use Rattle.definitions.specs.Limits.{shorter_than};

// What a lent cell holds where there is no answer: of a number 0, of a float +0, of an array each entry's.
pub trait Zero: Copy {
    ghost ZERO: { Self };

    const ZERO: Self;
}

impl Zero for u8 {
    ghost ZERO = { 0 };

    const ZERO: u8 = 0;
}

impl Zero for u16 {
    ghost ZERO = { 0 };

    const ZERO: u16 = 0;
}

impl Zero for i8 {
    ghost ZERO = { pos 0 };

    const ZERO: i8 = 0;
}

impl Zero for i16 {
    ghost ZERO = { pos 0 };

    const ZERO: i16 = 0;
}

impl Zero for i32 {
    ghost ZERO = { pos 0 };

    const ZERO: i32 = 0;
}

impl Zero for i64 {
    ghost ZERO = { pos 0 };

    const ZERO: i64 = 0;
}

impl Zero for f64 {
    ghost ZERO = { zero_f };

    const ZERO: f64 = 0.0;
}

impl<T: Zero, const N: usize> Zero for [T; N] {
    ghost ZERO = { replicate N T.ZERO };

    const ZERO: [T; N] = [T::ZERO; N];
}

// Zero from the place n on.
pub fn clear<T: Zero>(out: &mut [T], n: usize)
    ensures { out.new ≡ padded T.ZERO (take n out.old) (length out.old) }
{
    if n < out.len() {
        // no `fill`, which clones: of a type that is `Copy` a clone may still fail, or be another value
        for x in &mut out[n..] {
            *x = T::ZERO;
        }
    }
}

// Whether one of the lists that are lent, of these lengths, is shorter than the answer.
pub fn lacks_room<const N: usize>(answer: usize, rooms: [usize; N]) -> bool
    ensures { result ≡ any (shorter_than answer) rooms.entry }
{
    rooms.iter().any(|room| *room < answer)
}
