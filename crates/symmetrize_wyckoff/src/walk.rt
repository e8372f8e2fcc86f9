// The walk of moyo's `assign_wyckoffs_by_orbit`: one pass over the sites, which notes each orbit's letter in a table.
ghost use Rattle.std.specs.Prelude.{length};
ghost use Rattle.symmetrize_wyckoff.specs.Walk.{walked};
ghost use Rattle.symmetrize_wyckoff.specs.Prepared.{found_by, Walkable, NotesAll};

use crate::find::Candidates;
use definitions::limits::MOST_LISTED;
use definitions::{Cells, Position};

// The letter of each label, where it has one.
pub(crate) type Letters = [Option<u8>; MOST_LISTED];

// The letter of each label: that of the first of its sites that fits a candidate.
pub(crate) fn note_letters(
    labels: &[u16],
    multiplicities: &[u16],
    positions: &[Cells],
    candidates: &Candidates,
) -> Letters
    requires { Walkable labels.now multiplicities.now positions.now }
    ensures { NotesAll
        (walked
        (found_by
        (record {
          multiplicities = multiplicities.now;
          positions = positions.now;
          basis = candidates.now.basis;
          symprec = candidates.now.symprec;
          candidates = candidates.now.listed.now;
        }))
        labels.now (length labels.now))
        result }
{
    let mut table = [None; MOST_LISTED];
    // By the site's number: a chain over the three lists side by side is no plainer.
    for (j, label) in labels.iter().enumerate() {
        let label = usize::from(*label);
        if table[label].is_none() {
            let at = Position::from(positions[j]);
            table[label] = candidates.find_letter(multiplicities[j], at);
        }
    }
    table
}
