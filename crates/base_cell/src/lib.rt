// The orbits of the listed sites (moyo's base/cell.rs, and `orbits_in_cell` and `group_sites_by_orbit` of its
// symmetrize/wyckoff.rs): the label call and its step; what joined, a label and a multiplicity are, and demand 3, in
// specs/.
#![tactic(auto)]

mod labels;
mod union_find;
pub mod verdicts;

ghost use Rattle.std.specs.Prelude.{◌≡◌, true, length};
ghost use Rattle.definitions.specs.SiteCalls.{HoldsLabels, LabelPromise, label_rooms, nothing_labelled};
ghost use Rattle.base_cell.specs.Given.{arguments_of, orbit_cells, SameRooms, SameOrbits};
ghost use Rattle.base_cell.specs.Grouping.{Room, LabelsLeft, OrbitsLabelled};

use crate::labels::Grouping;
use crate::verdicts::{Labelling, Rooms};
use definitions::Verdict;
use lent::clear;

// The two lists that a caller lends, with an entry a listed site in each: its label and its multiplicity.
#[derive(Drop)]
pub struct Orbits<'a> {
    pub labels: &'a mut [u16],
    pub multiplicities: &'a mut [u16],
}

impl<'a> Orbits<'a> {
    fn rooms(&self) -> Rooms
        ensures { result ≡ label_rooms (orbit_cells self.now) }
    {
        [self.labels.len(), self.multiplicities.len()]
    }

    // The answer and zero behind it.
    fn put(&mut self, x: &Grouping)
        requires { Room (length x.now.labelling.mapping.now)
            (length self.old.labels.now) (length self.old.multiplicities.now) }
        ensures left { LabelsLeft (arguments_of x.now.labelling) (orbit_cells self.old) (orbit_cells self.new) true }
        ensures rooms { SameRooms (orbit_cells self.old) (orbit_cells self.new) }
        ensures same_lists { SameOrbits self.old self.new }
    {
        x.group_sites_by_orbit(self.labels, self.multiplicities);
        let listed = x.labelling.mapping.len();
        clear(self.labels, listed);
        clear(self.multiplicities, listed);
    }

    // Zero.
    pub fn clear(&mut self)
        ensures zero { HoldsLabels (orbit_cells self.old) (orbit_cells self.new) nothing_labelled }
        ensures rooms { SameRooms (orbit_cells self.old) (orbit_cells self.new) }
        ensures same_lists { SameOrbits self.old self.new }
    {
        clear(self.labels, 0);
        clear(self.multiplicities, 0);
    }
}

// moyo's `orbits_in_cell` and `group_sites_by_orbit`: labels and multiplicities of the sites of a mapping.
pub fn label_sites(x: &Labelling, orbits: &mut Orbits) -> Verdict
    ensures labelled { LabelPromise (arguments_of x.now) (orbit_cells orbits.old) (orbit_cells orbits.new) result }
    ensures rooms { SameRooms (orbit_cells orbits.old) (orbit_cells orbits.new) }
    ensures same_lists { SameOrbits orbits.old orbits.new }
{
    match x.accepted(orbits.rooms()) {
        Ok(grouping) => {
            orbits.put(&grouping);
            Ok(())
        }
        Err(refusal) => {
            orbits.clear();
            Err(refusal)
        }
    }
}

// The step of it that labels, whatever the images are: where they are known to be permutations, none is tested again.
pub fn label_orbits(x: &Labelling, orbits: &mut Orbits)
    ensures labelled { OrbitsLabelled (arguments_of x.now) (orbit_cells orbits.old) (orbit_cells orbits.new) }
    ensures rooms { SameRooms (orbit_cells orbits.old) (orbit_cells orbits.new) }
    ensures same_lists { SameOrbits orbits.old orbits.new }
{
    match x.tested(orbits.rooms()) {
        Some(grouping) => orbits.put(&grouping),
        None => orbits.clear(),
    }
}
