// Whole jobs: the call on bytes with its report, the call on lists, and the reader of a job's bytes.
use crate::records::{Given, Shown, print_refused};
use crate::streams::Streams;
use definitions::{
    AnswerCounts, Basis, Cells, JobCounts, Linear, Point, Position, Refusal, Rotation, Text,
};
use job::{JobLists, read_job};
use job_standardize::standardize_bytes;
use report_text::lines::Columns;
use report_text::{REPORT_BYTES, put_report};
use std::io::{self, Read, Write};
use symmetrize_standardize::{Answer, Job, standardize};

// ---- a job in values and lists

// What a job has one of, and its lists.
#[derive(Drop)]
struct JobVecs {
    lattice: Basis,
    t: Linear,
    shift: Cells,
    c: Linear,
    elements: Vec<i32>,
    positions: Vec<Cells>,
    rotations: Vec<Rotation>,
    translations: Vec<Cells>,
    images: Vec<u8>,
    rotations_of_targets: Vec<Rotation>,
    translations_of_targets: Vec<Cells>,
    conventional: Vec<Rotation>,
    multiplicities: Vec<u16>,
    letters: Vec<u8>,
    texts: Vec<Text>,
    symprec: f64,
}

fn read_given<R: Read, W: Write>(streams: &mut Streams<R, W>) -> io::Result<JobVecs> {
    Ok(JobVecs {
        lattice: streams.read()?,
        t: streams.read()?,
        shift: streams.read()?,
        c: streams.read()?,
        elements: streams.read_list()?,
        positions: streams.read_list()?,
        rotations: streams.read_list()?,
        translations: streams.read_list()?,
        images: streams.read_long()?,
        rotations_of_targets: streams.read_list()?,
        translations_of_targets: streams.read_list()?,
        conventional: streams.read_list()?,
        multiplicities: streams.read_list()?,
        letters: streams.read_list()?,
        texts: streams.read_list()?,
        symprec: streams.read()?,
    })
}

// lent to be read into
fn lend_given<R: Read, W: Write>(streams: &mut Streams<R, W>) -> io::Result<JobVecs> {
    Ok(JobVecs {
        lattice: Basis::SEVEN,
        t: Linear::SEVEN,
        shift: Cells::SEVEN,
        c: Linear::SEVEN,
        elements: streams.lend()?,
        positions: streams.lend()?,
        rotations: streams.lend()?,
        translations: streams.lend()?,
        images: streams.lend_long()?,
        rotations_of_targets: streams.lend()?,
        translations_of_targets: streams.lend()?,
        conventional: streams.lend()?,
        multiplicities: streams.lend()?,
        letters: streams.lend()?,
        texts: streams.lend()?,
        symprec: f64::SEVEN,
    })
}

// what a job has one of, then the lists behind the images, then those before
fn show_given<R: Read, W: Write>(streams: &mut Streams<R, W>, job: &JobLists) -> io::Result<()> {
    streams.show(job.lattice)?;
    streams.show(job.t)?;
    streams.show(job.shift)?;
    streams.show(job.c)?;
    streams.show(job.symprec)?;
    streams.show_all(job.rotations_of_targets)?;
    streams.show_all(job.translations_of_targets)?;
    streams.show_all(job.conventional)?;
    streams.show_all(job.multiplicities)?;
    streams.show_all(job.letters)?;
    streams.show_all(job.texts)?;
    streams.show_all(job.elements)?;
    streams.show_all(job.positions)?;
    streams.show_all(job.rotations)?;
    streams.show_all(job.translations)?;
    streams.show_all(job.images)
}

// ---- an answer's lists

#[derive(Drop)]
struct AnswerVecs {
    positions: Vec<Cells>,
    points: Vec<Point>,
    mapping: Vec<u16>,
    elements: Vec<i32>,
    labels: Vec<u16>,
    multiplicities: Vec<u16>,
    letters: Vec<u8>,
    primitive: Vec<Cells>,
    primitive_cell_basis: Basis,
    listed_cell_basis: Basis,
    factors: [i16; 3],
}

impl AnswerVecs {
    fn lists(&mut self) -> Answer<'_> {
        Answer {
            positions: &mut self.positions,
            points: &mut self.points,
            mapping: &mut self.mapping,
            elements: &mut self.elements,
            labels: &mut self.labels,
            multiplicities: &mut self.multiplicities,
            letters: &mut self.letters,
            primitive: &mut self.primitive,
            primitive_cell_basis: &mut self.primitive_cell_basis,
            listed_cell_basis: &mut self.listed_cell_basis,
            factors: &mut self.factors,
        }
    }
}

fn lend_answer<R: Read, W: Write>(streams: &mut Streams<R, W>) -> io::Result<AnswerVecs> {
    Ok(AnswerVecs {
        positions: streams.lend()?,
        points: streams.lend()?,
        mapping: streams.lend()?,
        elements: streams.lend()?,
        labels: streams.lend()?,
        multiplicities: streams.lend()?,
        letters: streams.lend()?,
        primitive: streams.lend()?,
        primitive_cell_basis: Basis::SEVEN,
        listed_cell_basis: Basis::SEVEN,
        factors: [7; 3],
    })
}

fn show_lists<R: Read, W: Write>(
    streams: &mut Streams<R, W>,
    answer: &AnswerVecs,
) -> io::Result<()> {
    streams.show_all(&answer.positions)?;
    streams.show_all(&answer.points)?;
    streams.show_all(&answer.mapping)?;
    streams.show_all(&answer.elements)?;
    streams.show_all(&answer.labels)?;
    streams.show_all(&answer.multiplicities)?;
    streams.show_all(&answer.letters)?;
    streams.show_all(&answer.primitive)
}

// what is said, and the answer's bases and factors
fn show_said<R: Read, W: Write>(
    streams: &mut Streams<R, W>,
    said: Result<AnswerCounts, Refusal>,
    answer: &AnswerVecs,
) -> io::Result<()> {
    match said {
        Ok(AnswerCounts { sites, orbits }) => {
            streams.print(" accepted")?;
            streams.show([sites, orbits])?;
        }
        Err(refusal) => print_refused(streams, refusal)?,
    }
    streams.show(answer.primitive_cell_basis)?;
    streams.show(answer.listed_cell_basis)?;
    streams.show(answer.factors)
}

// ---- the whole call on bytes

fn show_report<R: Read, W: Write>(
    streams: &mut Streams<R, W>,
    said: Result<AnswerCounts, Refusal>,
    answer: &AnswerVecs,
) -> io::Result<()> {
    let mut text = [0u8; REPORT_BYTES];
    let columns = Columns {
        mapping: &answer.mapping,
        labels: &answer.labels,
        multiplicities: &answer.multiplicities,
        letters: &answer.letters,
    };
    let n = put_report(said.map_err(usize::from), &columns, &mut text);
    streams.show_digits(&text[..n.min(REPORT_BYTES)])
}

pub(crate) fn run_bytes<R: Read, W: Write>(streams: &mut Streams<R, W>) -> io::Result<()> {
    let bytes = streams.read_long()?;
    let mut answer = lend_answer(streams)?;
    let said = standardize_bytes(&bytes, &mut answer.lists());
    show_said(streams, said, &answer)?;
    show_report(streams, said, &answer)?;
    show_lists(streams, &answer)
}

// ---- the whole call on lists

pub(crate) fn run_lists<R: Read, W: Write>(streams: &mut Streams<R, W>) -> io::Result<()> {
    let job = read_given(streams)?;
    let mut answer = lend_answer(streams)?;
    let given = Job {
        lattice: job.lattice,
        t: job.t,
        shift: Position::from(job.shift),
        c: job.c,
        elements: &job.elements,
        positions: &job.positions,
        rotations: &job.rotations,
        translations: &job.translations,
        images: &job.images,
        rotations_of_targets: &job.rotations_of_targets,
        translations_of_targets: &job.translations_of_targets,
        conventional: &job.conventional,
        multiplicities: &job.multiplicities,
        letters: &job.letters,
        texts: &job.texts,
        symprec: job.symprec,
    };
    let said = standardize(&given, &mut answer.lists());
    show_said(streams, said, &answer)?;
    show_lists(streams, &answer)
}

// ---- the reader of a job's bytes

fn show_counts<R: Read, W: Write>(streams: &mut Streams<R, W>, k: JobCounts) -> io::Result<()> {
    streams.print(" read")?;
    streams.show([
        k.sites,
        k.operations,
        k.images,
        k.targets,
        k.rotations,
        k.candidates,
    ])
}

pub(crate) fn run_read<R: Read, W: Write>(streams: &mut Streams<R, W>) -> io::Result<()> {
    let bytes = streams.read_long()?;
    let mut job = lend_given(streams)?;
    let mut lists = JobLists {
        lattice: job.lattice,
        t: job.t,
        shift: job.shift,
        c: job.c,
        elements: &mut job.elements,
        positions: &mut job.positions,
        rotations: &mut job.rotations,
        translations: &mut job.translations,
        images: &mut job.images,
        rotations_of_targets: &mut job.rotations_of_targets,
        translations_of_targets: &mut job.translations_of_targets,
        conventional: &mut job.conventional,
        multiplicities: &mut job.multiplicities,
        letters: &mut job.letters,
        texts: &mut job.texts,
        symprec: job.symprec,
    };
    let said = read_job(&bytes, &mut lists);
    match said {
        Ok(k) => show_counts(streams, k)?,
        Err(refusal) => print_refused(streams, refusal)?,
    }
    show_given(streams, &lists)
}
