// What there is to letter: lists that belong together, and labels that are listed sites.
ghost use Rattle.std.specs.Prelude.{◌≡◌, ltb, length};
ghost use Rattle.std.specs.List.{list_all};
ghost use Rattle.definitions.specs.SiteCalls.{assignable};
ghost use Rattle.symmetrize_wyckoff.specs.Given.{placed_of};
ghost use Rattle.symmetrize_wyckoff.specs.Lettering.{assign_with};

use crate::arguments::Placed;
use definitions::limits::{MOST_CANDIDATES, MOST_LISTED};

// Each label is a listed site.
fn labels_listed(labels: &[u16]) -> bool
    ensures { result ≡ list_all (λ l. ltb l (length labels.now)) labels.now }
{
    let n = labels.len();
    labels.iter().all(|label| usize::from(*label) < n)
}

// By `&`: where a chain of `&&` joins, the check does not find what its tests say.
pub(crate) fn assignable(
    labels: &[u16],
    multiplicities: &[u16],
    placed: &Placed,
    room: usize,
) -> bool
    ensures { result ≡ assignable (assign_with (placed_of placed.now) labels.now multiplicities.now) room }
{
    let n = labels.len();
    let candidates = placed.multiplicities.len();
    (n <= MOST_LISTED)
        & (candidates <= MOST_CANDIDATES)
        & (n == multiplicities.len())
        & (n == placed.positions.len())
        & (candidates == placed.letters.len())
        & (candidates == placed.spaces.len())
        & (n <= room)
        & labels_listed(labels)
}
