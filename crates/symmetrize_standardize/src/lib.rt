// moyo's symmetrize/standardize.rs: the whole call on a job's lists, `standardize_and_symmetrize_cell` and then
// `assign_wyckoffs_by_orbit`.
#![tactic(auto)]

mod cell;
mod orbits;
mod verdicts;

ghost use Rattle.std.specs.Prelude.{◌*◌, ◌≤◌, ◌≡◌, length};
ghost use Rattle.definitions.specs.Limits.{most_images};
ghost use Rattle.definitions.specs.WholeCalls.{HoldsAnswer, nothing_answered, ListsPromise, rooms_of};
ghost use Rattle.base_cell.specs.Given.{orbit_cells, SameRooms, SameOrbits};
ghost use Rattle.base_transformation.specs.Runs.{held};
ghost use Rattle.data_wyckoff.specs.Spaces.{lists};
ghost use Rattle.symmetrize_standardize.specs.Given.{given_by, answer_cells, SameAnswer};
ghost use Rattle.symmetrize_standardize.specs.Given.{labelling_of, placed_in, alignment_of, lattice_of, work_of};
ghost use Rattle.symmetrize_wyckoff.specs.Given.{letter_cells};
ghost use Rattle.symmetrize_standardize.specs.Stages.{Finished, lacks_room, images_room, Uncleared};

use crate::verdicts::Told;
use base_cell::Orbits;
use base_cell::verdicts::Labelling;
use base_transformation::cell::Listing;
use base_transformation::invariant_factors;
use checks::copies;
use data_wyckoff::space::{Space, prepare_all};
use definitions::limits::{MOST_CANDIDATES, MOST_IMAGES};
use definitions::{AnswerCounts, Basis, Cells, Linear, Point, Position, Refusal, Rotation, Text};
use lent::{Zero, clear, lacks_room};
use symmetrize_align::{GivenAlignment, Operations, align_permutations};
use symmetrize_lattice::{GivenLattice, symmetrize_lattice};
use symmetrize_wyckoff::arguments::Placed;

// Most jobs have no more images, and do not pay for zeroing the others: of those given, in the call on bytes, and of
// those aligned.
pub const USUAL_IMAGES: usize = 1024;

// A job, each list as it is lent.
#[derive(Clone, Copy)]
pub struct Job<'a> {
    pub lattice: Basis,
    pub t: Linear,
    pub shift: Position,
    pub c: Linear,
    pub elements: &'a [i32],
    pub positions: &'a [Cells],
    pub rotations: &'a [Rotation],
    pub translations: &'a [Cells],
    pub images: &'a [u8],
    pub rotations_of_targets: &'a [Rotation],
    pub translations_of_targets: &'a [Cells],
    pub conventional: &'a [Rotation],
    pub multiplicities: &'a [u16],
    pub letters: &'a [u8],
    pub texts: &'a [Text],
    pub symprec: f64,
}

impl<'a> Job<'a> {
    // What is aligned to the targets.
    fn alignment(&self) -> GivenAlignment<'a, 'a>
        ensures { result ≡ alignment_of self.now }
    {
        GivenAlignment {
            t: self.t,
            operations: Operations {
                rotations: self.rotations,
                images: self.images,
                sites: self.positions.len(),
            },
            targets: self.rotations_of_targets,
        }
    }

    // The lattice that the conventional rotations symmetrise.
    fn given_lattice(&self) -> GivenLattice<'a>
        ensures { result ≡ lattice_of self.now }
    {
        GivenLattice {
            lattice: self.lattice,
            t: self.t,
            c: self.c,
            rotations: self.conventional,
        }
    }
}

// What is lent for the answer.
#[derive(Drop)]
pub struct Answer<'a> {
    pub positions: &'a mut [Cells],
    pub points: &'a mut [Point],
    pub mapping: &'a mut [u16],
    pub elements: &'a mut [i32],
    pub labels: &'a mut [u16],
    pub multiplicities: &'a mut [u16],
    pub letters: &'a mut [u8],
    pub primitive: &'a mut [Cells],
    pub primitive_cell_basis: &'a mut Basis,
    pub listed_cell_basis: &'a mut Basis,
    pub factors: &'a mut [i16; 3],
}

impl Answer<'_> {
    // What every refusal leaves, here and in the call on bytes.
    pub fn clear(&mut self)
        ensures cleared { HoldsAnswer (answer_cells self.old) (answer_cells self.new) nothing_answered }
        ensures same_lists { SameAnswer self.old self.new }
    {
        clear(self.positions, 0);
        clear(self.points, 0);
        clear(self.mapping, 0);
        clear(self.elements, 0);
        clear(self.labels, 0);
        clear(self.multiplicities, 0);
        clear(self.letters, 0);
        clear(self.primitive, 0);
        *self.primitive_cell_basis = [[0.0; 3]; 3];
        *self.listed_cell_basis = [[0.0; 3]; 3];
        *self.factors = [0, 0, 0];
    }

    // Whether a list with an entry a listed site is shorter than so many, or that of the primitive sites than so many.
    pub(crate) fn lacks_room(&self, listed: usize, sites: usize) -> bool
        ensures { result ≡ lacks_room (rooms_of (answer_cells self.now)) listed sites }
    {
        lacks_room(
            listed,
            [
                self.positions.len(),
                self.points.len(),
                self.mapping.len(),
                self.elements.len(),
                self.labels.len(),
                self.multiplicities.len(),
                self.letters.len(),
            ],
        ) || self.primitive.len() < sites
    }
}

// What the letters are read off beside the listing, which holds so many sites, and the candidates' spaces: the aligned
// images, the listed basis and the candidates.
#[derive(Clone, Copy)]
pub(crate) struct Work<'w, 'j> {
    pub(crate) sites: usize,
    pub(crate) count: usize,
    pub(crate) aligned: &'w [u8],
    pub(crate) listed: usize,
    pub(crate) basis: Basis,
    pub(crate) symprec: f64,
    pub(crate) multiplicities: &'j [u16],
    pub(crate) letters: &'j [u8],
}

// With these aligned images, so many listed sites and this listed basis.
fn work_of<'w, 'j>(job: &Job<'j>, aligned: &'w [u8], listed: usize, basis: Basis) -> Work<'w, 'j>
    ensures { result ≡ work_of job.now aligned.entry listed basis }
{
    Work {
        sites: job.positions.len(),
        count: job.rotations_of_targets.len(),
        aligned,
        listed,
        basis,
        symprec: job.symprec,
        multiplicities: job.multiplicities,
        letters: job.letters,
    }
}

// The letters of the listed sites: an answer, or 13.
fn letter(
    work: &Work,
    spaces: &[Space],
    listing: &Listing,
    orbits: &mut Orbits,
    letters: &mut [u8],
) -> Result<AnswerCounts, Refusal>
    requires { (work.now.listed ≤ length listing.now.positions.now) × (work.now.listed ≤ length listing.now.mapping.now)
        × (work.now.listed ≤ length orbits.old.labels.now) × (work.now.listed ≤ length orbits.old.multiplicities.now) }
    ensures lettered { Finished work.now.listed
        (labelling_of work.now (held listing.now)) (placed_in work.now (lists spaces.now) (held listing.now))
        (letter_cells (orbit_cells orbits.old) letters.old) (letter_cells (orbit_cells orbits.new) letters.new) result }
    ensures rooms { SameRooms (orbit_cells orbits.old) (orbit_cells orbits.new) }
    ensures same_orbits { SameOrbits orbits.old orbits.new }
{
    let labelling = Labelling {
        sites: work.sites,
        count: work.count,
        images: work.aligned,
        mapping: &listing.mapping[..work.listed],
    };
    let placed = Placed {
        positions: &listing.positions[..work.listed],
        basis: work.basis,
        symprec: work.symprec,
        multiplicities: work.multiplicities,
        letters: work.letters,
        spaces,
    };
    orbits::label_and_letter(&labelling, &placed, orbits, letters)?;
    Ok(AnswerCounts {
        sites: work.listed,
        orbits: orbits::orbits_of(work.listed, orbits),
    })
}

// The sub-calls on what was given, the verdict of the whole before 13, and the work where it accepts. After a refusal
// the lent lists are left as they come. The caller has the room for the aligned images.
fn answer_with(job: &Job, aligned: &mut [u8], answer: &mut Answer) -> Result<AnswerCounts, Refusal>
    requires { length aligned.old
        ≡ images_room (length job.now.positions.now) (length job.now.rotations_of_targets.now) }
    ensures uncleared { Uncleared (given_by job.now) (answer_cells answer.old) (answer_cells answer.new) result }
    ensures rooms { rooms_of (answer_cells answer.new) ≡ rooms_of (answer_cells answer.old) }
    ensures same_lists { SameAnswer answer.old answer.new }
{
    let mut table = [Space::ZERO; MOST_CANDIDATES];
    let spaces = &mut table[..verdicts::candidates_room(job.texts.len())];
    let prepared = prepare_all(job.texts, spaces);
    let found = align_permutations(&job.alignment(), aligned);
    let lattice = symmetrize_lattice(&job.given_lattice());
    let factors = invariant_factors(job.c);
    let told = Told {
        prepared,
        factors,
        aligned: found,
        lattice,
    };
    job.whole_verdict(answer, &told)?;
    // past the verdict neither is a refusal
    let bases = lattice?;
    let diagonal = factors?;
    let primitive = bases.primitive;
    let basis = bases.listed;
    *answer.primitive_cell_basis = primitive;
    *answer.listed_cell_basis = basis;
    *answer.factors = diagonal;
    let mut listing = Listing {
        positions: answer.positions,
        points: answer.points,
        mapping: answer.mapping,
        elements: answer.elements,
    };
    cell::list_cell(job, aligned, answer.primitive, &mut listing);
    let listed = job.positions.len() * copies(job.c);
    let work = work_of(job, aligned, listed, basis);
    let mut orbits = Orbits {
        labels: answer.labels,
        multiplicities: answer.multiplicities,
    };
    letter(&work, spaces, &listing, &mut orbits, answer.letters)
}

// The same over a local list for the aligned images, of which only the front is lent.
fn answer_within<const N: usize>(
    job: &Job,
    entries: usize,
    answer: &mut Answer,
) -> Result<AnswerCounts, Refusal>
    requires { (entries ≡ images_room (length job.now.positions.now) (length job.now.rotations_of_targets.now))
        × (entries ≤ N) × (N ≤ most_images) }
    ensures uncleared { Uncleared (given_by job.now) (answer_cells answer.old) (answer_cells answer.new) result }
    ensures rooms { rooms_of (answer_cells answer.new) ≡ rooms_of (answer_cells answer.old) }
    ensures same_lists { SameAnswer answer.old answer.new }
{
    let mut aligned = [0u8; N];
    answer_with(job, &mut aligned[..entries], answer)
}

// The list is short where there are few images.
fn answer_with_room(job: &Job, answer: &mut Answer) -> Result<AnswerCounts, Refusal>
    ensures uncleared { Uncleared (given_by job.now) (answer_cells answer.old) (answer_cells answer.new) result }
    ensures rooms { rooms_of (answer_cells answer.new) ≡ rooms_of (answer_cells answer.old) }
    ensures same_lists { SameAnswer answer.old answer.new }
{
    let entries = verdicts::images_room(job.positions.len(), job.rotations_of_targets.len());
    if entries <= USUAL_IMAGES {
        return answer_within::<USUAL_IMAGES>(job, entries, answer);
    }
    answer_within::<MOST_IMAGES>(job, entries, answer)
}

// A job's standard cell with its listed sites, their labels and their letters; all zero after a refusal.
pub fn standardize(job: &Job, answer: &mut Answer) -> Result<AnswerCounts, Refusal>
    ensures standardized { ListsPromise (given_by job.now) (answer_cells answer.old) (answer_cells answer.new) result }
    ensures same_lists { SameAnswer answer.old answer.new }
{
    let counts = answer_with_room(job, answer);
    if counts.is_err() {
        answer.clear();
    }
    counts
}
