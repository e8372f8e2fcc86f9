// Whether the lists that are lent have room for a job.
ghost use Rattle.std.specs.Prelude.{◌≡◌, not, ◌&&◌};
ghost use Rattle.job.specs.Given.{short, takes_up};

use crate::layout;
use definitions::JobCounts;
use lent::lacks_room;

// How many entries each lent list has.
#[derive(Clone, Copy)]
pub struct Rooms {
    pub elements: usize,
    pub positions: usize,
    pub rotations: usize,
    pub translations: usize,
    pub images: usize,
    pub rotations_of_targets: usize,
    pub translations_of_targets: usize,
    pub conventional: usize,
    pub multiplicities: usize,
    pub letters: usize,
    pub texts: usize,
}

impl Rooms {
    // Whether a list is too short for so many of each command.
    pub(crate) fn short(self, k: JobCounts) -> bool
        ensures { result ≡ short k self }
    {
        lacks_room(k.sites, [self.elements, self.positions])
            || lacks_room(k.operations, [self.rotations, self.translations])
            || self.images < k.images
            || lacks_room(
                k.targets,
                [self.rotations_of_targets, self.translations_of_targets],
            )
            || self.conventional < k.rotations
            || lacks_room(
                k.candidates,
                [self.multiplicities, self.letters, self.texts],
            )
    }

    // Whether so many of each command take up so many bytes, and no list is too short for them.
    pub(crate) fn readable(self, bytes: usize, k: JobCounts) -> bool
        ensures { result ≡ (takes_up k bytes && not (short k self)) }
    {
        layout::takes_up(k, bytes) && !self.short(k)
    }
}
