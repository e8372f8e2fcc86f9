// What records hold and lines show, for the program that runs vectors. Numbers are little-endian; past the end of the
// input they are 0. Each word that is shown has a space in front.
use crate::streams::Streams;
use definitions::{Refusal, Text};
use job::operands::float_of;
use lent::Zero;
use std::io::{self, Read, Write};

// ---- what a record holds

pub(crate) trait Given: Copy {
    fn read<R: Read, W: Write>(streams: &mut Streams<R, W>) -> io::Result<Self>;
}

impl Given for u8 {
    fn read<R: Read, W: Write>(streams: &mut Streams<R, W>) -> io::Result<u8> {
        Ok(u8::from_le_bytes(streams.read_bytes()?))
    }
}

impl Given for i8 {
    fn read<R: Read, W: Write>(streams: &mut Streams<R, W>) -> io::Result<i8> {
        Ok(i8::from_le_bytes(streams.read_bytes()?))
    }
}

impl Given for u16 {
    fn read<R: Read, W: Write>(streams: &mut Streams<R, W>) -> io::Result<u16> {
        Ok(u16::from_le_bytes(streams.read_bytes()?))
    }
}

impl Given for u32 {
    fn read<R: Read, W: Write>(streams: &mut Streams<R, W>) -> io::Result<u32> {
        Ok(u32::from_le_bytes(streams.read_bytes()?))
    }
}

impl Given for i32 {
    fn read<R: Read, W: Write>(streams: &mut Streams<R, W>) -> io::Result<i32> {
        Ok(i32::from_le_bytes(streams.read_bytes()?))
    }
}

impl Given for u64 {
    fn read<R: Read, W: Write>(streams: &mut Streams<R, W>) -> io::Result<u64> {
        Ok(u64::from_le_bytes(streams.read_bytes()?))
    }
}

impl Given for f64 {
    fn read<R: Read, W: Write>(streams: &mut Streams<R, W>) -> io::Result<f64> {
        Ok(float_of(u64::read(streams)?))
    }
}

impl<T: Given> Given for [T; 3] {
    fn read<R: Read, W: Write>(streams: &mut Streams<R, W>) -> io::Result<[T; 3]> {
        let x = T::read(streams)?;
        let y = T::read(streams)?;
        let z = T::read(streams)?;
        Ok([x, y, z])
    }
}

impl Given for Text {
    fn read<R: Read, W: Write>(streams: &mut Streams<R, W>) -> io::Result<Text> {
        streams.read_bytes()
    }
}

// ---- what a line shows

pub(crate) trait Shown: Copy {
    // What a lent cell holds before the call: 7, or sevens.
    const SEVEN: Self;

    fn show<W: Write>(self, output: &mut W) -> io::Result<()>;
}

impl Shown for u8 {
    const SEVEN: u8 = 7;

    fn show<W: Write>(self, output: &mut W) -> io::Result<()> {
        write!(output, " {self}")
    }
}

impl Shown for u16 {
    const SEVEN: u16 = 7;

    fn show<W: Write>(self, output: &mut W) -> io::Result<()> {
        write!(output, " {self}")
    }
}

impl Shown for usize {
    const SEVEN: usize = 7;

    fn show<W: Write>(self, output: &mut W) -> io::Result<()> {
        write!(output, " {self}")
    }
}

impl Shown for i8 {
    const SEVEN: i8 = 7;

    fn show<W: Write>(self, output: &mut W) -> io::Result<()> {
        write!(output, " {self}")
    }
}

impl Shown for i16 {
    const SEVEN: i16 = 7;

    fn show<W: Write>(self, output: &mut W) -> io::Result<()> {
        write!(output, " {self}")
    }
}

impl Shown for i32 {
    const SEVEN: i32 = 7;

    fn show<W: Write>(self, output: &mut W) -> io::Result<()> {
        write!(output, " {self}")
    }
}

impl Shown for i64 {
    const SEVEN: i64 = 7;

    fn show<W: Write>(self, output: &mut W) -> io::Result<()> {
        write!(output, " {self}")
    }
}

// the pattern, with no leading zeros, or `nan`
impl Shown for f64 {
    const SEVEN: f64 = 7.0;

    fn show<W: Write>(self, output: &mut W) -> io::Result<()> {
        if self.is_nan() {
            return write!(output, " nan");
        }
        let bits = f64::to_bits(self);
        write!(output, " {bits:x}")
    }
}

impl<T: Shown, const N: usize> Shown for [T; N] {
    const SEVEN: [T; N] = [T::SEVEN; N];

    fn show<W: Write>(self, output: &mut W) -> io::Result<()> {
        for x in &self {
            x.show(output)?;
        }
        Ok(())
    }
}

pub(crate) fn print_refused<R: Read, W: Write>(
    streams: &mut Streams<R, W>,
    refusal: Refusal,
) -> io::Result<()> {
    streams.print(" refused")?;
    streams.show(usize::from(refusal))
}

// Whether a call accepts: what it answers by value is shown behind this.
pub(crate) fn print_verdict<T: Copy, R: Read, W: Write>(
    streams: &mut Streams<R, W>,
    v: Result<T, Refusal>,
) -> io::Result<()> {
    match v {
        Ok(_) => streams.print(" accepted"),
        Err(refusal) => print_refused(streams, refusal),
    }
}

// What a call answers; zeros where it refuses, as lent cells are then, so that each line of a call has as many words.
pub(crate) fn show_answer<T: Shown + Zero, R: Read, W: Write>(
    streams: &mut Streams<R, W>,
    answer: Result<T, Refusal>,
) -> io::Result<()> {
    print_verdict(streams, answer)?;
    streams.show(answer.unwrap_or(T::ZERO))
}
