// The permutations of the operations, laid one behind the other in the order of the targets.
ghost use Rattle.std.specs.Prelude.{◌*◌, ◌≤◌, ◌≡◌, length};
ghost use Rattle.symmetrize_align.specs.Aligning.{Put};

use crate::GivenAlignment;
use crate::rotations::last_place;
use definitions::{Integers, Refusal, Verdict};

// A permutation into a part of the answer. No `copy_from_slice`: that is C's `memmove`, which the static library would
// need from outside.
fn copy(p: &[u8], out: &mut [u8])
    requires { length p.now ≡ length out.old }
    ensures { out.new ≡ p.now }
{
    for (i, image) in p.iter().enumerate() {
        out[i] = *image;
    }
}

impl GivenAlignment<'_, '_> {
    // Refused at the first target whose rotation is not found: those before it are written.
    pub(crate) fn put_aligned(&self, moved: &[Integers], out: &mut [u8]) -> Verdict
        requires { (length self.now.operations.images.now ≡ length moved.now * self.now.operations.sites)
            × (length self.now.targets.now * self.now.operations.sites ≤ length out.old) }
        ensures { Put moved.now self.now.operations.images.now self.now.operations.sites self.now.targets.now
            out.old out.new result }
    {
        let n = self.operations.sites;
        for (i, target) in self.targets.iter().enumerate() {
            let k = last_place(moved, *target).ok_or(Refusal::TargetRotation)?;
            let from = k * n;
            let part = &self.operations.images[from..from + n];
            let at = i * n;
            copy(part, &mut out[at..at + n]);
        }
        Ok(())
    }
}
