// moyo's `align_primitive_permutations` of symmetrize/standardize.rs over lent lists: the permutations of the
// operations, one for each target, by the transformed rotations.
#![tactic(auto)]

mod rotations;
mod targets;
mod verdicts;

ghost use Rattle.std.specs.Prelude.{length};
ghost use Rattle.definitions.specs.Calls.{AlignPromise};
ghost use Rattle.symmetrize_align.specs.Aligning.{Known, Aligned, Written};

use definitions::limits::MOST_OPERATIONS;
use definitions::{Integers, Linear, Rotation, Verdict};
use lent::{Zero, clear};

// The operations: a rotation each, and the images of all sites under it.
#[derive(Clone, Copy)]
pub struct Operations<'a> {
    pub rotations: &'a [Rotation],
    pub images: &'a [u8],
    pub sites: usize,
}

// What the call is given: the change T to the selected primitive basis, the operations, and the rotations of the
// targets.
#[derive(Clone, Copy)]
pub struct GivenAlignment<'o, 't> {
    pub t: Linear,
    pub operations: Operations<'o>,
    pub targets: &'t [Rotation],
}

impl GivenAlignment<'_, '_> {
    // Each operation's rotation is transformed once, however many targets there are.
    fn transform_and_put(&self, out: &mut [u8]) -> Verdict
        requires { Known self.now (length out.old) }
        ensures { Aligned self.now out.old out.new result }
    {
        // no heap: a table for the most operations, of which the first k are written
        let mut moved = [Integers::ZERO; MOST_OPERATIONS];
        rotations::put_transformed(self.t, self.operations.rotations, &mut moved);
        let k = self.operations.rotations.len();
        self.put_aligned(&moved[..k], out)
    }

    // The answer at the front of the list, or the refusal: 11 is met while the list is written.
    fn align(&self, out: &mut [u8]) -> Verdict
        ensures { Written self.now out.old out.new result }
    {
        self.verdict(out.len())?;
        self.transform_and_put(out)
    }
}

// The permutation of each target, target by target.
pub fn align_permutations(given: &GivenAlignment, out: &mut [u8]) -> Verdict
    ensures { AlignPromise given.now.t given.now.operations.rotations.now given.now.operations.images.now
        given.now.operations.sites given.now.targets.now out.old out.new result }
{
    let aligned = given.align(out);
    match aligned {
        Ok(()) => clear(out, given.targets.len() * given.operations.sites),
        Err(_) => clear(out, 0),
    }
    aligned
}
