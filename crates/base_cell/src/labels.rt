// The labels of the listed sites and how many sites have each, in three passes over the list.
ghost use Rattle.std.specs.Prelude.{◌≤◌, ◌<◌, ◌≡◌, ◌+◌, ◌++◌, length, drop, replicate};
ghost use Rattle.std.specs.Prelude.{slice_index, set};
ghost use Rattle.std.specs.Option.{unwrap_or};
ghost use Rattle.definitions.specs.Limits.{most_listed, most_sites};
ghost use Rattle.definitions.specs.Orbit.{multiplicities as multiplicities_of};
ghost use Rattle.definitions.specs.SiteCalls.{permutations_in};
ghost use Rattle.base_cell.specs.Given.{arguments_of};
ghost use Rattle.base_cell.specs.Labels.{labels_by};
ghost use Rattle.base_cell.specs.Grouping.{Below, Counted, Groupable, Room, Grouped};

use crate::union_find::{Sites, orbits_from_permutations};
use crate::verdicts::Labelling;
use definitions::limits::{MOST_LISTED, MOST_SITES};
use definitions::{ListedSite, PrimSite};

// How many listed sites have each label.
type Counts = [u16; MOST_LISTED];

// What was given, past the verdict or the step's test.
#[derive(Clone, Copy)]
pub(crate) struct Grouping<'i, 'm> {
    pub(crate) labelling: Labelling<'i, 'm>,
    ghost groupable: { Groupable (arguments_of labelling) },
}

fn root_of(roots: &Sites, i: PrimSite) -> PrimSite
    requires { i.0 < most_sites }
    ensures { (result.0 ≡ slice_index roots.now i.0) × (result.0 < most_sites) }
{
    PrimSite(usize::from(roots[i.0]))
}

// The listed site that was noted before, or else j.
fn first_or(noted: Option<u16>, j: ListedSite) -> ListedSite
    ensures { result.0 ≡ unwrap_or noted j.0 }
{
    match noted {
        Some(first) => ListedSite(usize::from(first)),
        None => j,
    }
}

fn count_site(counts: &mut Counts, label: ListedSite)
    requires { (label.0 < most_listed) × (slice_index counts.old label.0 < most_listed) }
    ensures { counts.new
        ≡ set counts.old label.0 (slice_index counts.old label.0 + 1) }
{
    counts[label.0] += 1;
}

fn sites_of(counts: &Counts, label: ListedSite) -> u16
    requires { label.0 < most_listed }
    ensures { result ≡ slice_index counts.now label.0 }
{
    counts[label.0]
}

// The table is the caller's: one that is returned is copied twice.
fn count_sites(labels: &[u16], counts: &mut Counts)
    requires { (Below most_listed labels.now) × (length labels.now ≤ most_listed)
        × (counts.old ≡ replicate most_listed 0) }
    ensures { Counted most_listed labels.now counts.new }
{
    for label in labels {
        count_site(counts, ListedSite(usize::from(*label)));
    }
}

fn put_multiplicities(labels: &[u16], counts: &Counts, out: &mut [u16])
    requires { (Below most_listed labels.now) × (Counted most_listed labels.now counts.now)
        × (length labels.now ≤ length out.old) }
    ensures { out.new
        ≡ multiplicities_of labels.now ++ drop (length labels.now) out.old }
{
    // over the labels and not over the cells of `out`: an index either way
    for (j, label) in labels.iter().enumerate() {
        out[j] = sites_of(counts, ListedSite(usize::from(*label)));
    }
}

impl Grouping<'_, '_> {
    // moyo's `orbits_in_cell`: the label is the first listed site whose primitive site has the same root.
    fn put_labels(&self, roots: &Sites, labels: &mut [u16])
        requires { length self.now.labelling.mapping.now ≤ length labels.old }
        ensures { labels.new
            ≡ labels_by roots.now self.now.labelling.mapping.now
            ++ drop (length self.now.labelling.mapping.now) labels.old }
    {
        let mut first: [Option<u16>; MOST_SITES] = [None; MOST_SITES];
        for (j, site) in self.labelling.mapping.iter().enumerate() {
            let i = usize::from(*site);
            let root = root_of(roots, PrimSite(i));
            let label = first_or(first[root.0], ListedSite(j));
            let l = label.0 as u16;
            first[root.0] = Some(l);
            labels[j] = l;
        }
    }

    // moyo's `group_sites_by_orbit`, for any number of permutations.
    pub(crate) fn group_sites_by_orbit(&self, labels: &mut [u16], multiplicities: &mut [u16])
        requires { Room (length self.now.labelling.mapping.now) (length labels.old) (length multiplicities.old) }
        ensures { Grouped (permutations_in (arguments_of self.now.labelling)) self.now.labelling.mapping.now
            labels.old multiplicities.old
            labels.new multiplicities.new }
    {
        let roots = orbits_from_permutations(self);
        self.put_labels(&roots, labels);
        let written = &labels[..self.labelling.mapping.len()];
        let mut counts = [0u16; MOST_LISTED];
        count_sites(written, &mut counts);
        put_multiplicities(written, &counts, multiplicities);
    }
}
