// The calls of symmetrize/wyckoff.rs on one candidate: its space, and its match with a position.
use crate::records::{print_refused, print_verdict};
use crate::streams::Streams;
use data_wyckoff::space::{Space, prepare};
use definitions::{Cells, Fit, Position};
use lent::Zero;
use std::io::{self, Read, Write};
use symmetrize_match::match_coordinates;

pub(crate) fn run_prepare<R: Read, W: Write>(streams: &mut Streams<R, W>) -> io::Result<()> {
    let text = streams.read()?;
    let prepared = prepare(&text);
    print_verdict(streams, prepared)?;
    let Space {
        matrix,
        shift,
        d,
        l,
        r,
    } = prepared.unwrap_or(Space::ZERO);
    streams.show(matrix)?;
    streams.show(shift)?;
    streams.show([d, l, r])
}

fn show_match<R: Read, W: Write>(streams: &mut Streams<R, W>, m: Option<Fit>) -> io::Result<()> {
    match m {
        Some(Fit { place, distance }) => {
            streams.print(" fits")?;
            streams.show(place)?;
            streams.show(distance)
        }
        None => streams.print(" misses"),
    }
}

pub(crate) fn run_match<R: Read, W: Write>(streams: &mut Streams<R, W>) -> io::Result<()> {
    let basis = streams.read()?;
    let position = Position::from(streams.read::<Cells>()?);
    let text = streams.read()?;
    let symprec = streams.read()?;
    match match_coordinates(basis, position, &text, symprec) {
        Ok(m) => show_match(streams, m),
        Err(refusal) => print_refused(streams, refusal),
    }
}
