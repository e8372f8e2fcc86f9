// The call that aligns permutations to targets: their images, target by target.
use crate::records::print_verdict;
use crate::streams::Streams;
use std::io::{self, Read, Write};
use symmetrize_align::{GivenAlignment, Operations, align_permutations};

pub(crate) fn run_align<R: Read, W: Write>(streams: &mut Streams<R, W>) -> io::Result<()> {
    let t = streams.read()?;
    let rotations = streams.read_list()?;
    let images = streams.read_list()?;
    let sites = streams.read_size()?;
    let targets = streams.read_list()?;
    let mut out = streams.lend()?;
    let given = GivenAlignment {
        t,
        operations: Operations {
            rotations: &rotations,
            images: &images,
            sites,
        },
        targets: &targets,
    };
    let v = align_permutations(&given, &mut out);
    print_verdict(streams, v)?;
    streams.show_all(&out)
}
