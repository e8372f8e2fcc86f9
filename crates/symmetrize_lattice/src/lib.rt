// The lattice symmetrised under the conventional rotations (moyo's `symmetrize_lattice` of
// symmetrize/symmetrization.rs), with the lattice's part of base/transformation.rs.
#![tactic(auto)]

ghost use Rattle.std.specs.Prelude.{◌≤◌, ◌≡◌, not, ◌||◌, length};
ghost use Rattle.definitions.specs.Lists.{all};
ghost use Rattle.definitions.specs.Refusal.{Returns, outcome};
ghost use Rattle.definitions.specs.Calls.{LatticePromise};
ghost use Rattle.definitions.specs.Symmetrization as Symmetrization;
ghost use Rattle.definitions.specs.Symmetrization.{mean_metric, new_basis};
ghost use Rattle.definitions.specs.Limits.{in_range, not_unimodular, bad_copies};
ghost use Rattle.symmetrize_lattice.specs.Lattice.{turned, total_metric, deforms, symmetrized};
ghost use Rattle.symmetrize_lattice.specs.Given.{conditions, conventional_basis, IsNew};

use checks::{all_in_range, good_copies, in_range, is_some_count, lattice_within, unimodular};
use definitions::{Bases, Basis, Linear, Refusal, Rotation};
use math_factor::cholesky;
use math_matrix::transposed;
use math_real::{inverse, matrix, whole};

fn metric(b: Basis) -> Basis
    ensures { result ≡ Symmetrization.metric b }
{
    matrix::product(transposed(b), b)
}

// (RᵀG)R
fn turned_metric(g: Basis, rotation: Rotation) -> Basis
    ensures { result ≡ turned g rotation }
{
    let r = whole::real(rotation);
    let p = matrix::product(transposed(r), g);
    matrix::product(p, r)
}

fn total_metric(g: Basis, rotations: &[Rotation]) -> Basis
    ensures { result ≡ total_metric g rotations.now }
{
    let mut total: Basis = [[0.0; 3]; 3];
    for rotation in rotations {
        let next = matrix::sum(total, turned_metric(g, *rotation));
        total = next;
    }
    total
}

fn mean_metric(old: Basis, rotations: &[Rotation]) -> Basis
    requires { length rotations.now ≤ 96 }
    ensures { result ≡ mean_metric old rotations.now }
{
    matrix::divide(total_metric(metric(old), rotations), rotations.len() as f64)
}

// the transposed factor, its third row negated if the old basis is left-handed
fn new_basis(old: Basis, factor: Basis) -> Basis
    ensures { result ≡ new_basis old factor }
{
    let upper = transposed(factor);
    if inverse::determinant(old) < 0.0 {
        return matrix::negate_third_row(upper);
    }
    upper
}

fn good_deformation(old: Basis, new: Basis) -> bool
    ensures { result ≡ deforms old new }
{
    let d = inverse::determinant(old);
    let singular = d == 0.0;
    let deformation = matrix::product(new, inverse::inverse(old));
    let finite = matrix::all_finite(deformation);
    !singular & finite
}

// None where 12 applies.
fn symmetrized(old: Basis, rotations: &[Rotation]) -> Option<Basis>
    requires { length rotations.now ≤ 96 }
    ensures { result ≡ symmetrized old rotations.now }
{
    let factor = cholesky(mean_metric(old, rotations))?;
    let basis = new_basis(old, factor);
    if good_deformation(old, basis) {
        return Some(basis);
    }
    None
}

// A lattice as a caller gives it: its basis, the change T to the selected primitive basis, the centring matrix C, and
// the rotations of the conventional cell.
#[derive(Clone, Copy)]
pub struct GivenLattice<'a> {
    pub lattice: Basis,
    pub t: Linear,
    pub c: Linear,
    pub rotations: &'a [Rotation],
}

impl GivenLattice<'_> {
    // the basis of columns times T, then C
    fn conventional_basis(&self) -> Basis
        ensures { result ≡ conventional_basis self.now }
    {
        let p = matrix::product(self.lattice, whole::real(self.t));
        matrix::product(p, whole::real(self.c))
    }

    fn entries_in_range(&self) -> bool
        ensures { result ≡ not (not (in_range self.now.t) || not (in_range self.now.c)
            || not (all in_range self.now.rotations.now)) }
    {
        in_range(self.t) & in_range(self.c) & all_in_range(self.rotations)
    }

    fn good_determinants(&self) -> bool
        ensures { result ≡ not (not_unimodular self.now.t || bad_copies self.now.c) }
    {
        unimodular(self.t) & good_copies(self.c)
    }

    // the new conventional basis
    fn symmetrized_basis(&self) -> Result<Basis, Refusal>
        ensures { Returns (conditions self.now) (IsNew self.now) (outcome (λ m. m) result) }
    {
        if !is_some_count(self.rotations.len()) {
            return Err(Refusal::Counts);
        }
        if !self.entries_in_range() {
            return Err(Refusal::MatrixEntry);
        }
        if !lattice_within(self.lattice) {
            return Err(Refusal::FloatRange);
        }
        if !self.good_determinants() {
            return Err(Refusal::Determinant);
        }
        let old = self.conventional_basis();
        symmetrized(old, self.rotations).ok_or(Refusal::Lattice)
    }
}

// The conventional basis is the new one, the primitive it times C⁻¹ and the listed that times C.
pub fn symmetrize_lattice(given: &GivenLattice) -> Result<Bases, Refusal>
    ensures { LatticePromise given.now.lattice given.now.t given.now.c given.now.rotations.now result }
{
    let conventional = given.symmetrized_basis()?;
    let primitive = matrix::product(conventional, whole::inverse_of_c(given.c));
    let listed = matrix::product(primitive, whole::real(given.c));
    Ok(Bases {
        conventional,
        primitive,
        listed,
    })
}
