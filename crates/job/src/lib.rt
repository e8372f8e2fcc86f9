// The job's bytes: specs/ proves that they have at most one reading, and `read_job` finds it; `count_job` only counts.
#![tactic(auto)]

mod fill;
pub mod layout;
mod lists;
pub mod operands;
pub mod room;

ghost use Rattle.std.specs.Prelude.{◌≡◌};
ghost use Rattle.definitions.specs.WholeCalls.{HoldsGiven, nothing_given, ReadPromise, CountPromise};
ghost use Rattle.job.specs.Given.{given_in, SameJob, rooms_of, Settled, ReadCounted};

use crate::room::Rooms;
use definitions::{Basis, Cells, JobCounts, Linear, Refusal, Rotation, Text};
use lent::{Zero, clear};

// The parts of a job: those of fixed size, and what is lent for its lists.
#[derive(Drop)]
pub struct JobLists<'a> {
    pub lattice: Basis,
    pub t: Linear,
    pub shift: Cells,
    pub c: Linear,
    pub elements: &'a mut [i32],
    pub positions: &'a mut [Cells],
    pub rotations: &'a mut [Rotation],
    pub translations: &'a mut [Cells],
    pub images: &'a mut [u8],
    pub rotations_of_targets: &'a mut [Rotation],
    pub translations_of_targets: &'a mut [Cells],
    pub conventional: &'a mut [Rotation],
    pub multiplicities: &'a mut [u16],
    pub letters: &'a mut [u8],
    pub texts: &'a mut [Text],
    pub symprec: f64,
}

impl JobLists<'_> {
    fn rooms(&self) -> Rooms
        ensures { result ≡ rooms_of (given_in self.now) }
    {
        Rooms {
            elements: self.elements.len(),
            positions: self.positions.len(),
            rotations: self.rotations.len(),
            translations: self.translations.len(),
            images: self.images.len(),
            rotations_of_targets: self.rotations_of_targets.len(),
            translations_of_targets: self.translations_of_targets.len(),
            conventional: self.conventional.len(),
            multiplicities: self.multiplicities.len(),
            letters: self.letters.len(),
            texts: self.texts.len(),
        }
    }

    // All values zero.
    fn clear(&mut self)
        ensures zero { HoldsGiven (given_in self.old) (given_in self.new) nothing_given }
        ensures same_lists { SameJob self.old self.new }
    {
        self.lattice = Basis::ZERO;
        self.t = Linear::ZERO;
        self.shift = Cells::ZERO;
        self.c = Linear::ZERO;
        self.symprec = 0.0;
        clear(self.elements, 0);
        clear(self.positions, 0);
        clear(self.rotations, 0);
        clear(self.translations, 0);
        clear(self.images, 0);
        clear(self.rotations_of_targets, 0);
        clear(self.translations_of_targets, 0);
        clear(self.conventional, 0);
        clear(self.multiplicities, 0);
        clear(self.letters, 0);
        clear(self.texts, 0);
    }
}

// 1 if the bytes are no job, else 10 if a list is too short for it, else the numbers of commands.
fn settled(bytes: &[u8], rooms: Rooms) -> Result<JobCounts, Refusal>
    ensures { Settled bytes.now rooms result }
{
    let k = layout::counted(bytes)?;
    if rooms.short(k) {
        return Err(Refusal::Buffer);
    }
    Ok(k)
}

// ---- the calls

// How many of each command the job of the bytes has: refused with 1 if they are no job.
pub fn count_job(bytes: &[u8]) -> Result<JobCounts, Refusal>
    ensures { CountPromise bytes.now result }
{
    layout::counted(bytes)
}

// The job of the bytes, in lent values: refused with 1 if they are no job, with 10 if a list is too short for it.
pub fn read_job(bytes: &[u8], lists: &mut JobLists) -> Result<JobCounts, Refusal>
    ensures read { ReadPromise bytes.now (given_in lists.old) (given_in lists.new) result }
    ensures same_lists { SameJob lists.old lists.new }
{
    let counts = settled(bytes, lists.rooms());
    match counts {
        Ok(k) => lists.fill(bytes, k),
        Err(_) => lists.clear(),
    }
    counts
}

// So many of each command, in lent values: for a caller who has counted them. Zero where they don't take up the bytes
// or a list is too short for them.
pub fn read_counted(bytes: &[u8], k: JobCounts, lists: &mut JobLists)
    ensures read { ReadCounted bytes.now k (given_in lists.old) (given_in lists.new) }
    ensures same_lists { SameJob lists.old lists.new }
{
    if lists.rooms().readable(bytes.len(), k) {
        lists.fill(bytes, k);
    } else {
        lists.clear();
    }
}
