// The label call of base/cell.rs: labels and multiplicities.
use crate::records::print_verdict;
use crate::streams::Streams;
use base_cell::verdicts::Labelling;
use base_cell::{Orbits, label_sites};
use std::io::{self, Read, Write};

pub(crate) fn run_labels<R: Read, W: Write>(streams: &mut Streams<R, W>) -> io::Result<()> {
    let sites = streams.read_size()?;
    let count = streams.read_size()?;
    let images = streams.read_list()?;
    let mapping = streams.read_list()?;
    let mut labels = streams.lend()?;
    let mut multiplicities = streams.lend()?;
    let labelling = Labelling {
        sites,
        count,
        images: &images,
        mapping: &mapping,
    };
    let mut orbits = Orbits {
        labels: &mut labels,
        multiplicities: &mut multiplicities,
    };
    let v = label_sites(&labelling, &mut orbits);
    print_verdict(streams, v)?;
    streams.show_all(&labels)?;
    streams.show_all(&multiplicities)
}
