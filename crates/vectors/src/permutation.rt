// The calls of base/permutation.rs, and the permutation made by rules from a seed.
use crate::records::{print_refused, print_verdict};
use crate::streams::Streams;
use base_permutation::{apply, identity, inverse, product};
use definitions::PrimSite;
use shuffle::{shuffle, step};
use std::io::{self, Read, Write};

pub(crate) fn run_identity<R: Read, W: Write>(streams: &mut Streams<R, W>) -> io::Result<()> {
    let n = streams.read_number()?;
    let mut out = streams.lend()?;
    let v = identity(n, &mut out);
    print_verdict(streams, v)?;
    streams.show_all(&out)
}

pub(crate) fn run_apply<R: Read, W: Write>(streams: &mut Streams<R, W>) -> io::Result<()> {
    let p = streams.read_list()?;
    let site = streams.read_number()?;
    match apply(&p, PrimSite(site)) {
        Ok(s) => streams.show(s.0),
        Err(refusal) => print_refused(streams, refusal),
    }
}

pub(crate) fn run_inverse<R: Read, W: Write>(streams: &mut Streams<R, W>) -> io::Result<()> {
    let p = streams.read_list()?;
    let mut out = streams.lend()?;
    let v = inverse(&p, &mut out);
    print_verdict(streams, v)?;
    streams.show_all(&out)
}

pub(crate) fn run_product<R: Read, W: Write>(streams: &mut Streams<R, W>) -> io::Result<()> {
    let p = streams.read_list()?;
    let q = streams.read_list()?;
    let mut out = streams.lend()?;
    let v = product(&p, &q, &mut out);
    print_verdict(streams, v)?;
    streams.show_all(&out)
}

pub(crate) fn run_step<R: Read, W: Write>(streams: &mut Streams<R, W>) -> io::Result<()> {
    let next = step(streams.read()?);
    streams.show(next as usize)
}

pub(crate) fn run_shuffle<R: Read, W: Write>(streams: &mut Streams<R, W>) -> io::Result<()> {
    let seed = streams.read()?;
    let n = streams.read_size()?;
    let mut out = streams.lend()?;
    let v = shuffle(seed, n, &mut out);
    print_verdict(streams, v)?;
    streams.show_all(&out)
}
