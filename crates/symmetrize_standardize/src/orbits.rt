// The orbits of the listed sites: their labels, their letters and how many there are.
ghost use Rattle.std.specs.Prelude.{◌≤◌, ◌≡◌, length, take, is_ok, IfErr};
ghost use Rattle.definitions.specs.declared.Refusal.TheVariants.{OrbitFit};
ghost use Rattle.definitions.specs.Orbit.{orbits};
ghost use Rattle.definitions.specs.SiteCalls.{Assigned};
ghost use Rattle.base_cell.specs.Given.{arguments_of, orbit_cells, SameRooms, SameOrbits};
ghost use Rattle.symmetrize_wyckoff.specs.Given.{placed_of, letter_cells};
ghost use Rattle.symmetrize_wyckoff.specs.Lettering.{assign_with};
ghost use Rattle.symmetrize_standardize.specs.Stages.{OrbitsLettered, own_labels};

use base_cell::verdicts::Labelling;
use base_cell::{Orbits, label_orbits};
use definitions::Verdict;
use symmetrize_wyckoff::arguments::Placed;
use symmetrize_wyckoff::assign_wyckoffs_by_orbit;

// How many sites are their own label.
fn count_own(labels: &[u16]) -> usize
    ensures { result ≡ length (own_labels labels.now) }
{
    labels
        .iter()
        .enumerate()
        .filter(|(j, label)| usize::from(**label) == *j)
        .count()
}

// The orbits of the first n sites: each has one that is its label.
pub(crate) fn orbits_of(n: usize, lists: &Orbits) -> usize
    requires { n ≤ length lists.now.labels.now }
    ensures { result ≡ length (orbits (take n lists.now.labels.now)) }
{
    count_own(&lists.labels[..n])
}

// moyo's `assign_wyckoffs_by_orbit` over labels just given: apart, since the lists are only read here.
fn assign(n: usize, placed: &Placed, orbits: &Orbits, letters: &mut [u8]) -> Verdict
    requires { (n ≤ length orbits.now.labels.now) × (n ≤ length orbits.now.multiplicities.now) }
    ensures assigned { Assigned
        (assign_with (placed_of placed.now) (take n orbits.now.labels.now) (take n orbits.now.multiplicities.now))
        letters.old letters.new (is_ok result) }
    ensures refusal { IfErr result (λ r. r ≡ OrbitFit) }
{
    assign_wyckoffs_by_orbit(
        &orbits.labels[..n],
        &orbits.multiplicities[..n],
        placed,
        letters,
    )
}

// Aligned images are permutations: the step that labels does not test them.
pub(crate) fn label_and_letter(
    labelling: &Labelling,
    placed: &Placed,
    orbits: &mut Orbits,
    letters: &mut [u8],
) -> Verdict
    requires { (length labelling.now.mapping.now ≤ length orbits.old.labels.now)
        × (length labelling.now.mapping.now ≤ length orbits.old.multiplicities.now) }
    ensures lettered { OrbitsLettered (arguments_of labelling.now) (placed_of placed.now)
        (letter_cells (orbit_cells orbits.old) letters.old)
        (letter_cells (orbit_cells orbits.new) letters.new) (is_ok result) }
    ensures refusal { IfErr result (λ r. r ≡ OrbitFit) }
    ensures rooms { SameRooms (orbit_cells orbits.old) (orbit_cells orbits.new) }
    ensures same_lists { SameOrbits orbits.old orbits.new }
{
    label_orbits(labelling, orbits);
    assign(labelling.mapping.len(), placed, orbits, letters)
}
