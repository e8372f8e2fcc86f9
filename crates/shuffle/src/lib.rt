// Request M-101 of document 02: a permutation made by rules from a seed, for tests with large lists. moyo has none.
#![tactic(auto)]

ghost use Rattle.std.specs.Prelude.{◌≡◌, ◌-◌, length};
ghost use Rattle.definitions.specs.Shuffle.{swap_down};
ghost use Rattle.definitions.specs.Shuffle as rules;
ghost use Rattle.definitions.specs.Calls.{ShufflePromise};

use base_permutation::identity;
use definitions::Verdict;

const MULTIPLIER: u32 = 1664525;

const INCREMENT: u32 = 1013904223;

// The next state.
pub fn step(state: u32) -> u32
    ensures { result ≡ rules.step state }
{
    state.wrapping_mul(MULTIPLIER).wrapping_add(INCREMENT)
}

// From the last entry down to the second: the first has nothing to be swapped with.
fn swap_down(seed: u32, list: &mut [u8])
    ensures { list.new ≡ swap_down (length list.old - 1) seed list.old }
{
    let mut state = seed;
    for i in (1..list.len()).rev() {
        state = step(state);
        let top = (state >> 16) as usize;
        list.swap(i, top % (i + 1));
    }
}

// The permutation of n sites that the rules make of the seed. The identity, which they start from, has the refusals.
pub fn shuffle(seed: u32, n: usize, out: &mut [u8]) -> Verdict
    ensures { ShufflePromise seed n out.old out.new result }
{
    identity(n, out)?;
    swap_down(seed, &mut out[..n]);
    Ok(())
}
