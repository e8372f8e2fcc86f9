// The calls of symmetrize/symmetrization.rs: positions and the lattice.
use crate::records::{print_verdict, show_answer};
use crate::streams::Streams;
use definitions::{Bases, Basis, Cells, Position};
use std::io::{self, Read, Write};
use symmetrize_lattice::{GivenLattice, symmetrize_lattice};
use symmetrize_positions::{GivenPositions, GivenTargets, symmetrize_positions};

pub(crate) fn run_positions<R: Read, W: Write>(streams: &mut Streams<R, W>) -> io::Result<()> {
    let t = streams.read()?;
    let shift = Position::from(streams.read::<Cells>()?);
    let positions = streams.read_list()?;
    let rotations = streams.read_list()?;
    let translations = streams.read_list()?;
    let images = streams.read_list()?;
    let mut out = streams.lend()?;
    let given = GivenPositions {
        t,
        shift,
        positions: &positions,
        targets: GivenTargets {
            rotations: &rotations,
            translations: &translations,
            images: &images,
        },
    };
    let v = symmetrize_positions(&given, &mut out);
    print_verdict(streams, v)?;
    streams.show_all(&out)
}

fn in_order(bases: Bases) -> [Basis; 3] {
    let Bases {
        conventional,
        primitive,
        listed,
    } = bases;
    [conventional, primitive, listed]
}

pub(crate) fn run_lattice<R: Read, W: Write>(streams: &mut Streams<R, W>) -> io::Result<()> {
    let lattice = streams.read()?;
    let t = streams.read()?;
    let c = streams.read()?;
    let rotations = streams.read_list()?;
    let given = GivenLattice {
        lattice,
        t,
        c,
        rotations: &rotations,
    };
    let bases = symmetrize_lattice(&given).map(in_order);
    show_answer(streams, bases)
}
