// The diagonalisation: D, L and R; and its passes.
use crate::records::{print_refused, show_answer};
use crate::streams::Streams;
use definitions::{Passes, Refusal, Stages};
use math_snf::{SmithForm, passes, snf};
use std::io::{self, Read, Write};

pub(crate) fn run_snf<R: Read, W: Write>(streams: &mut Streams<R, W>) -> io::Result<()> {
    let answer = snf(streams.read()?).map(|SmithForm { d, l, r }| [d, l, r]);
    show_answer(streams, answer)
}

fn show_stages<R: Read, W: Write>(streams: &mut Streams<R, W>, s: Stages) -> io::Result<()> {
    streams.show([s.first, s.second, s.third])
}

pub(crate) fn run_passes<R: Read, W: Write>(streams: &mut Streams<R, W>) -> io::Result<()> {
    match passes(streams.read()?) {
        Passes::Counted(s) => {
            streams.print(" accepted")?;
            show_stages(streams, s)
        }
        Passes::Left(s) => {
            print_refused(streams, Refusal::Diagonalisation)?;
            show_stages(streams, s)
        }
        Passes::Outside => print_refused(streams, Refusal::MatrixEntry),
    }
}
