// moyo's `WyckoffPositionSpace` with the `SNF::new` of its linear part: a candidate made ready for every position.
ghost use Rattle.std.specs.Prelude.{◌≡◌, length, set, IfOk};
ghost use Rattle.definitions.specs.Lent.{position_from, cells_of};
ghost use Rattle.definitions.specs.Refusal.{outcome};
ghost use Rattle.definitions.specs.SiteCalls.{PreparePromise, PrepareAllPromise};
ghost use Rattle.data_wyckoff.specs.Spaces.{space_of, zero_space, lists, first_of, PutSpaces, Judged};

use crate::read_terms;
use definitions::limits::MOST_CANDIDATES;
use definitions::{Cells, Refusal, Rotation, SnfMatrix, Text, Verdict};
use lent::{Zero, clear};
use math_snf::{SmithForm, snf};

// ---- one candidate

// A candidate's M and q with D, L and R of M: one preparation serves every position.
#[derive(Clone, Copy)]
pub struct Space {
    pub matrix: Rotation,
    pub shift: Cells,
    pub d: SnfMatrix,
    pub l: SnfMatrix,
    pub r: SnfMatrix,
}

impl Zero for Space {
    ghost ZERO = { zero_space };

    const ZERO: Space = Space {
        matrix: [[0; 3]; 3],
        shift: [0.0; 3],
        d: [[0; 3]; 3],
        l: [[0; 3]; 3],
        r: [[0; 3]; 3],
    };
}

// M and q, read, and D, L, R of M; or what refuses them: 6, 8
pub fn prepare(text: &Text) -> Result<Space, Refusal>
    ensures prepared { PreparePromise text.now (outcome space_of result) }
    ensures shift { IfOk result (λ s. cells_of (position_from s.shift) ≡ s.shift) }
{
    let (matrix, shift) = read_terms(*text).ok_or(Refusal::Coordinates)?;
    let SmithForm { d, l, r } = snf(matrix)?;
    Ok(Space {
        matrix,
        shift,
        d,
        l,
        r,
    })
}

// ---- a list of candidates

// The list may be too short: that is refused in the end, and no place is written that is not there. By a test and an
// index: of a slice behind `get_mut` no proof knows the elements.
fn put(spaces: &mut [Space], i: usize, space: Space)
    ensures { spaces.new ≡ set spaces.old i space }
{
    if i < spaces.len() {
        spaces[i] = space;
    }
}

// the lower of two refusals, if there is another
fn first_of(v: Verdict, k: Refusal) -> Refusal
    ensures { result ≡ first_of v k }
{
    match v {
        Ok(()) => k,
        Err(j) => j.min(k),
    }
}

// A later candidate may have a lower number: each is prepared, and once.
fn prepare_each(texts: &[Text], spaces: &mut [Space]) -> Verdict
    ensures { PutSpaces texts.now spaces.old spaces.new result }
{
    let mut v = Ok(());
    for (i, text) in texts.iter().enumerate() {
        match prepare(text) {
            Ok(space) => put(spaces, i, space),
            Err(k) => v = Err(first_of(v, k)),
        }
    }
    v
}

// 2, 6, 8, 10
fn judge(texts: &[Text], spaces: &mut [Space]) -> Verdict
    ensures { Judged texts.now spaces.old spaces.new result }
{
    if MOST_CANDIDATES < texts.len() {
        return Err(Refusal::Counts);
    }
    prepare_each(texts, spaces)?;
    if spaces.len() < texts.len() {
        return Err(Refusal::Buffer);
    }
    Ok(())
}

// Every candidate of a list, once for all positions; zero behind their spaces, and all zero after a refusal.
pub fn prepare_all(texts: &[Text], spaces: &mut [Space]) -> Verdict
    ensures prepared { PrepareAllPromise texts.now (lists spaces.old) (lists spaces.new) result }
    ensures len { length spaces.new ≡ length spaces.old }
{
    let v = judge(texts, spaces);
    match v {
        Ok(()) => clear(spaces, texts.len()),
        Err(_) => clear(spaces, 0),
    }
    v
}
