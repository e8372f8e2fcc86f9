// A job's lists: n operands, one from each of the commands that stand `width` bytes apart, to the front of a lent list,
// and zero behind.
ghost use Rattle.std.specs.Prelude.{◌+◌, ◌*◌, ◌≤◌, ◌≡◌, length};
ghost use Rattle.definitions.specs.Refusal.{padded};
ghost use Rattle.job.specs.Places.{items};

use crate::operands::Operand;
use lent::{Zero, clear};

pub(crate) fn put_items<const N: usize, T: Operand<N> + Zero>(
    bytes: &[u8],
    at: usize,
    width: usize,
    n: usize,
    out: &mut [T],
)
    requires { (at + n * width ≤ length bytes.now) × (N ≤ width) × (n ≤ length out.old) }
    ensures { out.new ≡
        padded T.ZERO (items (T.value bytes.now) width at n) (length out.old) }
{
    for i in 0..n {
        out[i] = T::read(bytes, at + i * width);
    }
    clear(out, n);
}
