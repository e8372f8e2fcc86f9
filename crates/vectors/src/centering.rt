// The matrix of a centring, which is given by its letter.
use crate::streams::Streams;
use data_centering::linear;
use definitions::Centering;
use std::io::{self, Read, Write};

// No `From`: the trait and both types are of other crates.
fn centering_of(letter: u8) -> Centering {
    match letter {
        b'A' => Centering::A,
        b'B' => Centering::B,
        b'C' => Centering::C,
        b'I' => Centering::I,
        b'R' => Centering::R,
        b'F' => Centering::F,
        _ => Centering::P,
    }
}

pub(crate) fn run_linear<R: Read, W: Write>(streams: &mut Streams<R, W>) -> io::Result<()> {
    let letter = streams.read()?;
    streams.print(" ")?;
    streams.print_char(letter)?;
    streams.show(linear(centering_of(letter)))
}
