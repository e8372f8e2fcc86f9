// The call that lists the copies of sites: positions, points, mapping and elements.
use crate::records::print_verdict;
use crate::streams::Streams;
use base_transformation::cell::{Listing, PrimitiveSites, list_sites};
use std::io::{self, Read, Write};

pub(crate) fn run_list<R: Read, W: Write>(streams: &mut Streams<R, W>) -> io::Result<()> {
    let c = streams.read()?;
    let elements = streams.read_list()?;
    let positions = streams.read_list()?;
    let mut out_positions = streams.lend()?;
    let mut out_points = streams.lend()?;
    let mut mapping = streams.lend()?;
    let mut out_elements = streams.lend()?;
    let mut listing = Listing {
        positions: &mut out_positions,
        points: &mut out_points,
        mapping: &mut mapping,
        elements: &mut out_elements,
    };
    let sites = PrimitiveSites {
        elements: &elements,
        positions: &positions,
    };
    let v = list_sites(c, &sites, &mut listing);
    print_verdict(streams, v)?;
    streams.show_all(&out_positions)?;
    streams.show_all(&out_points)?;
    streams.show_all(&mapping)?;
    streams.show_all(&out_elements)
}
