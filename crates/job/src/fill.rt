// The parts of a job, from the bytes to lent values.
ghost use Rattle.std.specs.Prelude.{◌+◌, ◌*◌, ◌≤◌, ◌≡◌, length, pos};
ghost use Rattle.definitions.specs.Refusal.{Holds};
ghost use Rattle.definitions.specs.Lent.{zero_cells, zero_matrix};
ghost use Rattle.definitions.specs.WholeCalls.{zero_text, HoldsGiven};
ghost use Rattle.job.specs.Places.{items, word_at, integer_at, text_at, lattice_at, cells_from, matrix_from};
ghost use Rattle.job.specs.Places.{symprec_from};
ghost use Rattle.job.specs.Given.{given_in, SameJob, rooms_of, Enough, given_at};
ghost use Rattle.job.specs.Words.{float_at};

use crate::JobLists;
use crate::layout::{CANDIDATE, IMAGE, OPENING, OPERATION, ROTATION, SITE};
use crate::lists::put_items;
use crate::operands::Operand;
use definitions::{Basis, Cells, JobCounts, Linear, Rotation, Text};

// S
fn fill_sites(bytes: &[u8], n: usize, elements: &mut [i32], positions: &mut [Cells])
    requires { (127 + n * 29 ≤ length bytes.now) × (n ≤ length elements.old) × (n ≤ length positions.old) }
    ensures { Holds (pos 0) elements.old elements.new (items (integer_at 4 bytes.now) 29 118 n)
        × Holds zero_cells positions.old positions.new
        (items (cells_from bytes.now) 29 122 n) }
{
    put_items(bytes, OPENING + 1, SITE, n, elements);
    put_items(bytes, OPENING + 5, SITE, n, positions);
}

// O or G
fn fill_operations(
    bytes: &[u8],
    at: usize,
    n: usize,
    rotations: &mut [Rotation],
    translations: &mut [Cells],
)
    requires { (at + n * 34 + 10 ≤ length bytes.now) × (n ≤ length rotations.old)
        × (n ≤ length translations.old) }
    ensures { Holds zero_matrix rotations.old rotations.new
        (items (matrix_from bytes.now) 34 (at + 1) n)
        × Holds zero_cells translations.old translations.new
        (items (cells_from bytes.now) 34 (at + 10) n) }
{
    put_items(bytes, at + 1, OPERATION, n, rotations);
    put_items(bytes, at + 10, OPERATION, n, translations);
}

// P
fn fill_images(bytes: &[u8], at: usize, n: usize, images: &mut [u8])
    requires { (at + n * 2 + 10 ≤ length bytes.now) × (n ≤ length images.old) }
    ensures { Holds 0 images.old images.new (items (word_at 1 bytes.now) 2 (at + 1) n) }
{
    put_items(bytes, at + 1, IMAGE, n, images);
}

// R
fn fill_conventional(bytes: &[u8], at: usize, n: usize, conventional: &mut [Rotation])
    requires { (at + n * 10 + 10 ≤ length bytes.now) × (n ≤ length conventional.old) }
    ensures { Holds zero_matrix conventional.old conventional.new
        (items (matrix_from bytes.now) 10 (at + 1) n) }
{
    put_items(bytes, at + 1, ROTATION, n, conventional);
}

// W: how often a site of the candidate stands in a cell, and its letter
fn fill_candidates(
    bytes: &[u8],
    at: usize,
    n: usize,
    multiplicities: &mut [u16],
    letters: &mut [u8],
)
    requires { (at + n * 68 + 10 ≤ length bytes.now) × (n ≤ length multiplicities.old) × (n ≤ length letters.old) }
    ensures { Holds 0 multiplicities.old multiplicities.new
        (items (word_at 2 bytes.now) 68 (at + 1) n)
        × Holds 0 letters.old letters.new
        (items (word_at 1 bytes.now) 68 (at + 3) n) }
{
    put_items(bytes, at + 1, CANDIDATE, n, multiplicities);
    put_items(bytes, at + 3, CANDIDATE, n, letters);
}

// .. and its coordinates
fn fill_texts(bytes: &[u8], at: usize, n: usize, texts: &mut [Text])
    requires { (at + n * 68 + 10 ≤ length bytes.now) × (n ≤ length texts.old) }
    ensures { Holds zero_text texts.old texts.new (items (text_at bytes.now) 68 (at + 4) n) }
{
    put_items(bytes, at + 4, CANDIDATE, n, texts);
}

impl JobLists<'_> {
    // All parts of a job with room for each.
    pub(crate) fn fill(&mut self, bytes: &[u8], k: JobCounts)
        requires { (symprec_from k + 10 ≡ length bytes.now) × Enough k (rooms_of (given_in self.old)) }
        ensures filled { HoldsGiven (given_in self.old) (given_in self.new) (given_at bytes.now k) }
        ensures same_lists { SameJob self.old self.new }
    {
        let operations_from = OPENING + k.sites * SITE;
        let images_from = operations_from + k.operations * OPERATION;
        let targets_from = images_from + k.images * IMAGE;
        let rotations_from = targets_from + k.targets * OPERATION;
        let candidates_from = rotations_from + k.rotations * ROTATION;
        let symprec_from = candidates_from + k.candidates * CANDIDATE;
        self.lattice = Basis::read(bytes, 1);
        self.t = Linear::read(bytes, 74);
        self.shift = Cells::read(bytes, 83);
        self.c = Linear::read(bytes, 108);
        fill_sites(bytes, k.sites, self.elements, self.positions);
        fill_operations(
            bytes,
            operations_from,
            k.operations,
            self.rotations,
            self.translations,
        );
        fill_images(bytes, images_from, k.images, self.images);
        fill_operations(
            bytes,
            targets_from,
            k.targets,
            self.rotations_of_targets,
            self.translations_of_targets,
        );
        fill_conventional(bytes, rotations_from, k.rotations, self.conventional);
        fill_candidates(
            bytes,
            candidates_from,
            k.candidates,
            self.multiplicities,
            self.letters,
        );
        fill_texts(bytes, candidates_from, k.candidates, self.texts);
        self.symprec = f64::read(bytes, symprec_from + 1);
    }
}
