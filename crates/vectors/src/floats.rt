// Rounding and its steps, the square root, and the remainder modulo 1: the patterns that go in, then those that come
// out.
use crate::streams::Streams;
use definitions::Position;
use job::operands::float_of;
use math_real::position::remainder;
use math_round::cases::{nearest, special, tie};
use math_round::round;
use math_sqrt::sqrt;
use std::io::{self, Read, Write};

// a float, whose pattern is shown: of a NaN too
fn read_shown<R: Read, W: Write>(streams: &mut Streams<R, W>) -> io::Result<f64> {
    let bits = streams.read()?;
    streams.show_pattern(bits)?;
    Ok(float_of(bits))
}

// what f makes of a float
fn run<R: Read, W: Write, F: Fn(f64) -> f64>(streams: &mut Streams<R, W>, f: F) -> io::Result<()>
    requires { F.IsAlwaysCallable f }
{
    let x = read_shown(streams)?;
    streams.show(f(x))
}

pub(crate) fn run_round<R: Read, W: Write>(streams: &mut Streams<R, W>) -> io::Result<()> {
    run(streams, round)
}

pub(crate) fn run_sqrt<R: Read, W: Write>(streams: &mut Streams<R, W>) -> io::Result<()> {
    run(streams, sqrt)
}

fn show_settled<R: Read, W: Write>(
    streams: &mut Streams<R, W>,
    name: &str,
    settled: Option<f64>,
) -> io::Result<()> {
    if let Some(r) = settled {
        streams.print(name)?;
        streams.show(r)?;
    }
    Ok(())
}

// each step that settles it, by name
pub(crate) fn run_steps<R: Read, W: Write>(streams: &mut Streams<R, W>) -> io::Result<()> {
    let x = read_shown(streams)?;
    show_settled(streams, " special", special(x))?;
    show_settled(streams, " nearest", nearest(x))?;
    show_settled(streams, " tie", tie(x))
}

pub(crate) fn run_remainder<R: Read, W: Write>(streams: &mut Streams<R, W>) -> io::Result<()> {
    let x = read_shown(streams)?;
    let y = read_shown(streams)?;
    let z = read_shown(streams)?;
    let p = remainder(Position { x, y, z });
    streams.show([p.x, p.y, p.z])
}
