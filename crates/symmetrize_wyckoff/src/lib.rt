// moyo's symmetrize/wyckoff.rs above its match: the letters of orbits.
#![tactic(auto)]

pub mod arguments;
mod find;
mod guard;
mod lettering;
mod prepare;
mod verdicts;
mod walk;
mod write;

ghost use Rattle.std.specs.Prelude.{◌≡◌, is_ok, IfErr, length, ◌≤◌};
ghost use Rattle.definitions.specs.declared.Refusal.TheVariants.{OrbitFit};
ghost use Rattle.definitions.specs.Limits.{most_candidates};
ghost use Rattle.definitions.specs.Wyckoff.{letter_of};
ghost use Rattle.definitions.specs.SiteCalls.{sites_in, Assigned, LetterPromise};
ghost use Rattle.base_cell.specs.Given.{orbit_cells, SameRooms, SameOrbits};
ghost use Rattle.symmetrize_wyckoff.specs.Prepared.{Assignable, NotesAll};
ghost use Rattle.symmetrize_wyckoff.specs.Given.{letter_arguments_of, letter_cells, placed_of};
ghost use Rattle.symmetrize_wyckoff.specs.Lettering.{LetterJudged, assign_with};

use crate::arguments::{Lettering, Placed};
use crate::find::Candidates;
use crate::guard::assignable;
use crate::prepare::{NO_CANDIDATE, put_candidates};
use crate::walk::{Letters, note_letters};
use crate::write::put_letters;
use base_cell::Orbits;
use definitions::limits::MOST_CANDIDATES;
use definitions::{Refusal, Verdict};
use lent::clear;

// A table for so many candidates is made faster than one for the most.
const USUAL_CANDIDATES: usize = 16;

// The letter of each label, the candidates' spaces worked out first, in a table for N of them.
fn letter_table_within<const N: usize>(
    labels: &[u16],
    multiplicities: &[u16],
    placed: &Placed,
) -> Letters
    requires { Assignable (assign_with (placed_of placed.now) labels.now multiplicities.now)
        × (length placed.now.spaces.now ≤ N) × (N ≤ most_candidates) }
    ensures { NotesAll
        (letter_of (sites_in (assign_with (placed_of placed.now) labels.now multiplicities.now))) result }
{
    let mut table = [NO_CANDIDATE; N];
    put_candidates(placed, &mut table);
    let candidates = Candidates {
        basis: placed.basis,
        symprec: placed.symprec,
        listed: &table[..placed.spaces.len()],
    };
    note_letters(labels, multiplicities, placed.positions, &candidates)
}

// The table is short where there are few candidates.
fn letter_table(labels: &[u16], multiplicities: &[u16], placed: &Placed) -> Letters
    requires { Assignable (assign_with (placed_of placed.now) labels.now multiplicities.now) }
    ensures { NotesAll
        (letter_of (sites_in (assign_with (placed_of placed.now) labels.now multiplicities.now))) result }
{
    if placed.spaces.len() <= USUAL_CANDIDATES {
        return letter_table_within::<USUAL_CANDIDATES>(labels, multiplicities, placed);
    }
    letter_table_within::<MOST_CANDIDATES>(labels, multiplicities, placed)
}

// moyo's `assign_wyckoffs_by_orbit`: every orbit's letter at its sites, or none where an orbit has none.
pub fn assign_wyckoffs_by_orbit(
    labels: &[u16],
    multiplicities: &[u16],
    placed: &Placed,
    letters: &mut [u8],
) -> Verdict
    ensures assigned { Assigned (assign_with (placed_of placed.now) labels.now multiplicities.now)
        letters.old letters.new (is_ok result) }
    ensures refusal { IfErr result (λ r. r ≡ OrbitFit) }
{
    if !assignable(labels, multiplicities, placed, letters.len()) {
        clear(letters, 0);
        return Err(Refusal::OrbitFit);
    }
    // The tables of a walk over no sites would be made for nothing.
    if labels.is_empty() {
        clear(letters, 0);
        return Ok(());
    }
    let table = letter_table(labels, multiplicities, placed);
    let verdict = put_letters(labels, &table, letters);
    match verdict {
        Ok(()) => clear(letters, labels.len()),
        Err(_) => clear(letters, 0),
    }
    verdict
}

// The verdict, with the answer in the lent lists where it accepts.
fn judge(given: &Lettering, orbits: &mut Orbits, letters: &mut [u8]) -> Verdict
    ensures judged { LetterJudged (letter_arguments_of given.now)
        (letter_cells (orbit_cells orbits.old) letters.old)
        (letter_cells (orbit_cells orbits.new) letters.new) result }
    ensures rooms { SameRooms (orbit_cells orbits.old) (orbit_cells orbits.new) }
    ensures same_lists { SameOrbits orbits.old orbits.new }
{
    given.given_verdict()?;
    given.letter_prepared(orbits, letters)
}

// moyo's `assign_wyckoffs_by_orbit` over a design: labels, multiplicities and letters of the listed sites.
pub fn letter_sites(given: &Lettering, orbits: &mut Orbits, letters: &mut [u8]) -> Verdict
    ensures lettered { LetterPromise (letter_arguments_of given.now)
        (letter_cells (orbit_cells orbits.old) letters.old)
        (letter_cells (orbit_cells orbits.new) letters.new) result }
    ensures same_lists { SameOrbits orbits.old orbits.new }
{
    let verdict = judge(given, orbits, letters);
    if verdict.is_err() {
        orbits.clear();
        clear(letters, 0);
    }
    verdict
}
