// The calls of base/transformation.rs: the invariant factors and the points of C, and a rotation in another basis.
use crate::records::{print_verdict, show_answer};
use crate::streams::Streams;
use base_transformation::{invariant_factors, lattice_points, transform_rotation};
use std::io::{self, Read, Write};

pub(crate) fn run_factors<R: Read, W: Write>(streams: &mut Streams<R, W>) -> io::Result<()> {
    let factors = invariant_factors(streams.read()?);
    show_answer(streams, factors)
}

pub(crate) fn run_points<R: Read, W: Write>(streams: &mut Streams<R, W>) -> io::Result<()> {
    let c = streams.read()?;
    let mut out = streams.lend()?;
    let v = lattice_points(c, &mut out);
    print_verdict(streams, v)?;
    streams.show_all(&out)
}

pub(crate) fn run_rotation<R: Read, W: Write>(streams: &mut Streams<R, W>) -> io::Result<()> {
    let t = streams.read()?;
    let r = streams.read()?;
    show_answer(streams, transform_rotation(t, r))
}
