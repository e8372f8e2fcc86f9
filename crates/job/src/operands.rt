// Operands of a job, little-endian: floats by their bits, numbers of one, two and four bytes, matrices, texts. Each is
// made of its own bytes; `read` takes these from their place.
ghost use Rattle.std.specs.Prelude.{ℕ, List, ◌+◌, ◌*◌, ◌≤◌, ◌≡◌, get_or, length, take, drop};
ghost use Rattle.std.specs.Float.{binary64};
ghost use Rattle.std.specs.Float.Ieee.{of_bits};
ghost use Rattle.definitions.specs.Job.{float};
ghost use Rattle.definitions.specs.Matrix.{mat};
ghost use Rattle.job.specs.Places.{word_at, integer_at, floats_at, text_at, cells_from, matrix_from};
ghost use Rattle.job.specs.Alone.{number_alone, integer_alone, float_alone};
ghost use Rattle.job.specs.Alone.{cells_alone, lattice_alone, matrix_alone, text_alone};

use definitions::{Basis, Cells, Rotation, Text};

// An operand of a command: N bytes, and their value.
pub(crate) trait Operand<const N: usize>: Sized {
    // the value at a place of a job's bytes
    ghost value: { List ℕ → ℕ → Self };

    // a reference, since where an array of N is passed by value each impl would have to repeat the clause
    fn of(own: &[u8; N]) -> Self
        ensures { result ≡ value own.now 0 };

    // no byte around its own counts
    ghost alone: { (bs : List ℕ) (at : ℕ) → value (take N (drop at bs)) 0 ≡ value bs at };

    // the operand at a place
    final fn read(bytes: &[u8], at: usize) -> Self
        requires { at + N ≤ length bytes.now }
        ensures { result ≡ value bytes.now at }
    {
        let own: &[u8; N] = (&bytes[at..at + N]).try_into().unwrap();
        Self::of(own)
    }
}

impl Operand<1> for u8 {
    ghost value = { word_at 1 };

    fn of(own: &[u8; 1]) -> u8 {
        own[0]
    }

    ghost alone = { λ bs at. number_alone bs at 1 };
}

impl Operand<1> for i8 {
    ghost value = { integer_at 1 };

    fn of(own: &[u8; 1]) -> i8 {
        i8::from_le_bytes(*own)
    }

    ghost alone = { λ bs at. integer_alone bs at 1 };
}

impl Operand<2> for u16 {
    ghost value = { word_at 2 };

    fn of(own: &[u8; 2]) -> u16 {
        u16::from_le_bytes(*own)
    }

    ghost alone = { λ bs at. number_alone bs at 2 };
}

impl Operand<4> for i32 {
    ghost value = { integer_at 4 };

    fn of(own: &[u8; 4]) -> i32 {
        i32::from_le_bytes(*own)
    }

    ghost alone = { λ bs at. integer_alone bs at 4 };
}

// the value of a pattern; `from_bits` takes no NaN, so that one is made
pub fn float_of(bits: u64) -> f64
    ensures { result ≡ of_bits binary64 bits }
{
    if 0x7FF0_0000_0000_0000 < bits % 0x8000_0000_0000_0000 {
        return f64::NAN;
    }
    f64::from_bits(bits)
}

impl Operand<8> for f64 {
    ghost value = { λ bs at. float (word_at 8 bs at) };

    fn of(own: &[u8; 8]) -> f64 {
        float_of(u64::from_le_bytes(*own))
    }

    ghost alone = { float_alone };
}

impl Operand<24> for Cells {
    ghost value = { cells_from };

    fn of(own: &[u8; 24]) -> Cells {
        [f64::read(own, 0), f64::read(own, 8), f64::read(own, 16)]
    }

    ghost alone = { cells_alone };
}

// column by column
impl Operand<72> for Basis {
    ghost value = { λ bs at. mat (λ i j. float (get_or (floats_at 9 bs at) (3 * j + i) 0)) };

    fn of(own: &[u8; 72]) -> Basis {
        [
            [f64::read(own, 0), f64::read(own, 24), f64::read(own, 48)],
            [f64::read(own, 8), f64::read(own, 32), f64::read(own, 56)],
            [f64::read(own, 16), f64::read(own, 40), f64::read(own, 64)],
        ]
    }

    ghost alone = { lattice_alone };
}

// row by row
impl Operand<9> for Rotation {
    ghost value = { matrix_from };

    fn of(own: &[u8; 9]) -> Rotation {
        [
            [i8::read(own, 0), i8::read(own, 1), i8::read(own, 2)],
            [i8::read(own, 3), i8::read(own, 4), i8::read(own, 5)],
            [i8::read(own, 6), i8::read(own, 7), i8::read(own, 8)],
        ]
    }

    ghost alone = { matrix_alone };
}

impl Operand<64> for Text {
    ghost value = { text_at };

    fn of(own: &[u8; 64]) -> Text {
        *own
    }

    ghost alone = { text_alone };
}
