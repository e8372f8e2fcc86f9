// The verdict of the label call, its refusals in their order, and the test of the step that labels: each decided before
// anything is written.
ghost use Rattle.std.specs.List.{list_all};
ghost use Rattle.std.specs.Prelude.{◌≡◌, ◌||◌, ltb, length};
ghost use Rattle.definitions.specs.Refusal.{Checked};
ghost use Rattle.definitions.specs.Limits.{shorter_than, too_many_listed};
ghost use Rattle.definitions.specs.Lists.{any};
ghost use Rattle.definitions.specs.Lent.{bad_permutation_counts, bad_images};
ghost use Rattle.definitions.specs.SiteCalls.{bad_mapping, label_conditions};
ghost use Rattle.base_cell.specs.Given.{arguments_of};
ghost use Rattle.base_cell.specs.Grouping.{groupable};
ghost use Rattle.base_cell.specs.Tested.{Accepted, Tested};

use crate::labels::Grouping;
use base_permutation::{all_permutations, bad_permutation_counts};
use definitions::limits::MOST_LISTED;
use definitions::{Refusal, Verdict};
use lent::lacks_room;

// How many entries each of the two lists has room for: labels, multiplicities.
pub(crate) type Rooms = [usize; 2];

// What the call and its step are given: permutations of so many sites, and of each listed site its primitive one.
#[derive(Clone, Copy)]
pub struct Labelling<'i, 'm> {
    pub sites: usize,
    pub count: usize,
    pub images: &'i [u8],
    pub mapping: &'m [u16],
}

// Apart from `bad_mapping`, since there the check does not find what `all` says of the list.
fn each_below(n: usize, mapping: &[u16]) -> bool
    ensures { result ≡ list_all (λ i. ltb i n) mapping.now }
{
    mapping.iter().all(|site| usize::from(*site) < n)
}

impl<'i, 'm> Labelling<'i, 'm> {
    // 2
    pub fn bad_counts(&self) -> bool
        ensures { result ≡ bad_permutation_counts self.now.sites self.now.count self.now.images.now }
    {
        bad_permutation_counts(self.sites, self.count, self.images)
    }

    // A mapping entry that is no primitive site: every entry is looked at, however many there are.
    fn bad_mapping(&self) -> bool
        ensures { result ≡ bad_mapping self.now.sites self.now.mapping.now }
    {
        !each_below(self.sites, self.mapping)
    }

    // 5
    pub fn bad_sites(&self) -> bool
        ensures { result ≡ (bad_images self.now.sites self.now.count self.now.images.now
            || bad_mapping self.now.sites self.now.mapping.now) }
    {
        if !all_permutations(self.images, self.sites, self.count) {
            return true;
        }
        self.bad_mapping()
    }

    // 9
    fn lists_too_many(&self) -> bool
        ensures { result ≡ too_many_listed (length self.now.mapping.now) }
    {
        MOST_LISTED < self.mapping.len()
    }

    // 10
    fn lacks_room(&self, rooms: Rooms) -> bool
        ensures { result ≡ any (shorter_than (length self.now.mapping.now)) rooms }
    {
        lacks_room(self.mapping.len(), rooms)
    }

    // 2, 5, 9, 10
    fn verdict(&self, rooms: Rooms) -> Verdict
        ensures { Checked (label_conditions (arguments_of self.now) rooms) result }
    {
        if self.bad_counts() {
            return Err(Refusal::Counts);
        }
        if self.bad_sites() {
            return Err(Refusal::SiteImage);
        }
        if self.lists_too_many() {
            return Err(Refusal::ListedSites);
        }
        if self.lacks_room(rooms) {
            return Err(Refusal::Buffer);
        }
        Ok(())
    }

    // The step's test: as `verdict`, without the costly one, that the images are permutations.
    fn can_group(&self, rooms: Rooms) -> bool
        ensures { result ≡ groupable (arguments_of self.now) rooms }
    {
        if self.bad_counts() {
            return false;
        }
        if self.bad_mapping() {
            return false;
        }
        if self.lists_too_many() {
            return false;
        }
        !self.lacks_room(rooms)
    }

    // What the call groups, or its refusal.
    pub(crate) fn accepted(&self, rooms: Rooms) -> Result<Grouping<'i, 'm>, Refusal>
        ensures { Accepted self.now rooms result }
    {
        self.verdict(rooms)?;
        Ok(Grouping { labelling: *self })
    }

    // What the step groups.
    pub(crate) fn tested(&self, rooms: Rooms) -> Option<Grouping<'i, 'm>>
        ensures { Tested self.now rooms result }
    {
        if !self.can_group(rooms) {
            return None;
        }
        Some(Grouping { labelling: *self })
    }
}
