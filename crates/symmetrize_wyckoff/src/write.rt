// The end of moyo's `assign_wyckoffs_by_orbit`: each site has its orbit's letter.
ghost use Rattle.std.specs.Prelude.{◌≤◌, ◌≡◌, length, is_ok, IfErr};
ghost use Rattle.definitions.specs.declared.Refusal.TheVariants.{OrbitFit};
ghost use Rattle.definitions.specs.Limits.{most_listed};
ghost use Rattle.base_cell.specs.Grouping.{Below};
ghost use Rattle.symmetrize_wyckoff.specs.Prepared.{Written};

use crate::walk::Letters;
use definitions::{Refusal, Verdict};

// Each site's letter is its orbit's, as long as all have one.
pub(crate) fn put_letters(labels: &[u16], table: &Letters, letters: &mut [u8]) -> Verdict
    requires { Below most_listed labels.now × (length labels.now ≤ length letters.old) }
    ensures written { Written labels.now table.now letters.old letters.new (is_ok result) }
    ensures refusal { IfErr result (λ r. r ≡ OrbitFit) }
{
    for (j, label) in labels.iter().enumerate() {
        letters[j] = table[usize::from(*label)].ok_or(Refusal::OrbitFit)?;
    }
    Ok(())
}
