// The letter call of symmetrize/wyckoff.rs: labels, multiplicities and letters.
use crate::records::print_verdict;
use crate::streams::Streams;
use base_cell::Orbits;
use base_cell::verdicts::Labelling;
use std::io::{self, Read, Write};
use symmetrize_wyckoff::arguments::Lettering;
use symmetrize_wyckoff::letter_sites;

pub(crate) fn run_letters<R: Read, W: Write>(streams: &mut Streams<R, W>) -> io::Result<()> {
    let sites = streams.read_size()?;
    let count = streams.read_size()?;
    let images = streams.read_list()?;
    let mapping = streams.read_list()?;
    let positions = streams.read_list()?;
    let basis = streams.read()?;
    let candidates = streams.read_list()?;
    let candidate_letters = streams.read_list()?;
    let texts = streams.read_list()?;
    let symprec = streams.read()?;
    let mut labels = streams.lend()?;
    let mut multiplicities = streams.lend()?;
    let mut letters = streams.lend()?;
    let given = Lettering {
        labelling: Labelling {
            sites,
            count,
            images: &images,
            mapping: &mapping,
        },
        positions: &positions,
        basis,
        multiplicities: &candidates,
        letters: &candidate_letters,
        texts: &texts,
        symprec,
    };
    let mut orbits = Orbits {
        labels: &mut labels,
        multiplicities: &mut multiplicities,
    };
    let v = letter_sites(&given, &mut orbits, &mut letters);
    print_verdict(streams, v)?;
    streams.show_all(&labels)?;
    streams.show_all(&multiplicities)?;
    streams.show_all(&letters)
}
