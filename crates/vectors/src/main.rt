// Runs the records of standard input, one call each, and prints a line for each: the tag, what the call said, and every
// lent cell, after a refusal too, or what is answered by value, zeros after a refusal. No lent cell is zero before the
// call. J, j and b print lent matrices and the like before the lists; J also the report that `put_report` makes of it,
// its bytes in hexadecimal digits. N prints the passes of each stage, and those begun behind a refusal with 8.
//
// A record is a tag and the call's arguments. A float is its pattern, eight bytes; a size is eight bytes too; a matrix
// is nine signed bytes, a basis nine floats, row by row; a position is three floats; an element is four bytes, a text
// 64; a number is two bytes; a list is a number and as many entries, a long list a size and as many bytes; a room is a
// number, of the cells that are lent.
//
//   tag  call                                     arguments
//   r    math_round::round                        float
//   s    math_round::cases: the three steps       float
//   q    math_sqrt::sqrt                          float
//   m    math_real::position::remainder           three floats
//   D    math_snf::snf                            matrix
//   N    math_snf::passes                         matrix
//   F    base_transformation::invariant_factors   matrix C
//   P    base_transformation::lattice_points      matrix C, room
//   T    base_transformation::transform_rotation  matrices T, R
//   C    data_centering::linear                   the centring's letter, a byte
//   i    base_permutation::identity               number, room
//   a    base_permutation::apply                  list of bytes, number
//   v    base_permutation::inverse                list of bytes, room
//   x    base_permutation::product                two lists of bytes, room
//   t    shuffle::step                            state, four bytes
//   h    shuffle::shuffle                         seed, four bytes; size, of sites; room
//   S    symmetrize_positions                     matrix T; the shift, three floats; lists of positions, of rotations,
//                                                 of translations and of images: three floats, a matrix or a byte
//                                                 an entry; room
//   W    data_wyckoff::read_coordinates           text
//   L    symmetrize_lattice                       basis; matrices T, C; list of matrices
//   A    symmetrize_align::align_permutations     matrix T; lists of rotations and of images; size, of sites; list of
//                                                 targets' rotations; room
//   l    base_transformation::cell::list_sites    matrix C; lists of elements and of positions; rooms of positions,
//                                                 points, mapping and elements
//   o    base_cell::label_sites                   sizes: sites and permutations; lists of images and of numbers, the
//                                                 mapping; rooms of labels and multiplicities
//   p    data_wyckoff::space::prepare             text
//   M    symmetrize_match::match_coordinates      basis, position, text, float symprec
//   w    symmetrize_wyckoff::letter_sites         as o without the rooms; list of positions; basis; of candidates lists
//                                                 of numbers, of bytes and of texts; float symprec; rooms of labels,
//                                                 multiplicities and letters
//   J    job_standardize::standardize_bytes       long list of bytes; rooms of positions, points, mapping, elements,
//                                                 labels, multiplicities, letters and primitive positions
//   j    symmetrize_standardize::standardize      basis; matrix T; the shift, three floats; matrix C; lists of elements
//                                                 and of positions; of operations lists of rotations and of
//                                                 translations; long list of images; of targets as of operations;
//                                                 list of matrices; candidates and symprec as in w; rooms as in J
//   b    job::read_job                            long list of bytes; rooms of the lists of j
#![tactic(auto)]

mod align;
mod cell;
mod centering;
mod coordinates;
mod floats;
mod jobs;
mod labels;
mod letters;
mod permutation;
mod records;
mod snf;
mod streams;
mod symmetrization;
mod transformation;
mod wyckoff;

use crate::streams::Streams;
use std::io::{self, BufReader, BufWriter, Read, Write};

fn run<R: Read, W: Write>(streams: &mut Streams<R, W>, tag: u8) -> io::Result<()> {
    match tag {
        b'r' => floats::run_round(streams),
        b's' => floats::run_steps(streams),
        b'q' => floats::run_sqrt(streams),
        b'm' => floats::run_remainder(streams),
        b'D' => snf::run_snf(streams),
        b'N' => snf::run_passes(streams),
        b'F' => transformation::run_factors(streams),
        b'P' => transformation::run_points(streams),
        b'T' => transformation::run_rotation(streams),
        b'C' => centering::run_linear(streams),
        b'i' => permutation::run_identity(streams),
        b'a' => permutation::run_apply(streams),
        b'v' => permutation::run_inverse(streams),
        b'x' => permutation::run_product(streams),
        b't' => permutation::run_step(streams),
        b'h' => permutation::run_shuffle(streams),
        b'W' => coordinates::run_read(streams),
        b'S' => symmetrization::run_positions(streams),
        b'L' => symmetrization::run_lattice(streams),
        b'A' => align::run_align(streams),
        b'l' => cell::run_list(streams),
        b'o' => labels::run_labels(streams),
        b'p' => wyckoff::run_prepare(streams),
        b'M' => wyckoff::run_match(streams),
        b'w' => letters::run_letters(streams),
        b'J' => jobs::run_bytes(streams),
        b'j' => jobs::run_lists(streams),
        b'b' => jobs::run_read(streams),
        _ => streams.print(" is no tag"),
    }
}

// false where the input has ended: no tag is 0
fn next<R: Read, W: Write>(streams: &mut Streams<R, W>) -> io::Result<bool> {
    let tag = streams.read()?;
    if tag == 0 {
        return Ok(false);
    }
    streams.print_char(tag)?;
    run(streams, tag)?;
    streams.print("\n")?;
    Ok(true)
}

// A proved loop has to end, and nothing says that the input does: the turns are counted.
fn main(rt: HostRuntime) -> io::Result<()> {
    let input = BufReader::new(rt.alloc(), rt.reader())?;
    let output = BufWriter::new(rt.alloc(), io::writer(&rt))?;
    let mut streams = Streams::new(rt.alloc(), input, output);
    for _ in 0..u64::MAX {
        if !next(&mut streams)? {
            break;
        }
    }
    streams.flush()
}
