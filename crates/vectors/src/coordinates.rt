// The reader of coordinates: rows and origin.
use crate::records::print_verdict;
use crate::streams::Streams;
use data_wyckoff::read_coordinates;
use definitions::{Cells, Rotation};
use lent::Zero;
use std::io::{self, Read, Write};

pub(crate) fn run_read<R: Read, W: Write>(streams: &mut Streams<R, W>) -> io::Result<()> {
    let text = streams.read()?;
    let read = read_coordinates(&text);
    print_verdict(streams, read)?;
    let (rows, origin) = read.unwrap_or((Rotation::ZERO, Cells::ZERO));
    streams.show(rows)?;
    streams.show(origin)
}
