// Tests of a call's arguments that several calls share: whole numbers, floats, determinants, counts.
#![tactic(auto)]

ghost use Rattle.std.specs.Prelude.{◌≡◌, not};
ghost use Rattle.definitions.specs.Lists.{all};
ghost use Rattle.definitions.specs.Limits as Limits;
ghost use Rattle.definitions.specs.Limits.{in_range, lattice_within};
ghost use Rattle.definitions.specs.Limits.{position_within, good_symprec, not_some, not_unimodular, bad_copies};
ghost use Rattle.definitions.specs.Lent.{cells_within};
ghost use Rattle.checks.specs.Entries.{small_entry, at_most};

use definitions::limits::{
    LATTICE_LIMIT, MOST_COPIES, MOST_OPERATIONS, POSITION_LIMIT, SYMPREC_LIMIT,
};
use definitions::{Basis, Cells, Linear, Position, Rotation};
use math_matrix::{determinant, widened};

fn entry_in_range(e: i8) -> bool
    ensures { result ≡ small_entry e }
{
    (-31..=31).contains(&e)
}

fn row_in_range(v: [i8; 3]) -> bool
    ensures { result ≡ all small_entry v }
{
    v.iter().all(|e| entry_in_range(*e))
}

// every entry from -31 to 31; math_real's `all_finite` is the same call of the library over another test
pub fn in_range(m: Rotation) -> bool
    ensures { result ≡ in_range m }
{
    m.iter().all(|row| row_in_range(*row))
}

pub fn all_in_range(ms: &[Rotation]) -> bool
    ensures { result ≡ all in_range ms.now }
{
    ms.iter().all(|m| in_range(*m))
}

// A NaN is not at most any number, and an infinity at most no finite one.
fn within(x: f64, limit: f64) -> bool
    ensures { result ≡ at_most limit x }
{
    x.abs() <= limit
}

fn all_within(v: [f64; 3], limit: f64) -> bool
    ensures { result ≡ all (at_most limit) v }
{
    v.iter().all(|x| within(*x, limit))
}

pub fn lattice_within(l: Basis) -> bool
    ensures { result ≡ lattice_within l }
{
    l.iter().all(|row| all_within(*row, LATTICE_LIMIT))
}

pub fn position_within(p: Position) -> bool
    ensures { result ≡ position_within p }
{
    all_within([p.x, p.y, p.z], POSITION_LIMIT)
}

pub fn all_cells_within(ps: &[Cells]) -> bool
    ensures { result ≡ all cells_within ps.now }
{
    ps.iter().all(|p| position_within(Position::from(*p)))
}

// above 0, and not over 1000
pub fn good_symprec(s: f64) -> bool
    ensures { result ≡ good_symprec s }
{
    0.0 < s && within(s, SYMPREC_LIMIT)
}

// |det c|: the number of copies of a site
pub fn copies(c: Linear) -> usize
    ensures { result ≡ Limits.copies c }
{
    determinant(widened(c)).unsigned_abs() as usize
}

// the determinant is 1 or -1
pub fn unimodular(t: Linear) -> bool
    ensures { result ≡ not (not_unimodular t) }
{
    copies(t) == 1
}

// from 1 to 64 copies
pub fn good_copies(c: Linear) -> bool
    ensures { result ≡ not (bad_copies c) }
{
    (1..=MOST_COPIES).contains(&copies(c))
}

// from 1 to 96
pub fn is_some_count(n: usize) -> bool
    ensures { result ≡ not (not_some n) }
{
    (1..=MOST_OPERATIONS).contains(&n)
}
