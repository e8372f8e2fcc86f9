// The copies of primitive sites in the conventional cell (the listing of moyo's `Transformation::transform_cell`), run
// by run: the run of a primitive site has its copy at each point.
ghost use Rattle.std.specs.Prelude.{◌≡◌, ◌+◌, ◌*◌, ◌<◌, ◌≤◌, ◌||◌, List, [], length, pos, slice_index_or};
ghost use Rattle.definitions.specs.Lists.{each};
ghost use Rattle.definitions.specs.Limits as Limits;
ghost use Rattle.definitions.specs.Limits.{most_sites, most_copies, too_many_sites};
ghost use Rattle.definitions.specs.Lent.{position_from, zero_cells, zero_point, unlike};
ghost use Rattle.definitions.specs.Refusal.{Returns, outcome, padded};
ghost use Rattle.definitions.specs.Calls.{IsSnf};
ghost use Rattle.definitions.specs.Snf.{points};
ghost use Rattle.definitions.specs.Cell.{point_of, listed_points, site_mapping, listed_elements};
ghost use Rattle.definitions.specs.SiteCalls.{HoldsListing, nothing_listed, listable, listing_rooms, CopiesListed};
ghost use Rattle.definitions.specs.SiteCalls.{list_conditions, ListPromise};
ghost use Rattle.math_snf.specs.Step.{state_of};
ghost use Rattle.base_transformation.specs.Answers.{Ready};
ghost use Rattle.base_transformation.specs.Runs.{copy_cells, run_cells, held, SameRooms, SameLists};
ghost use Rattle.base_transformation.specs.Runs.{Makes, MakesRun, CanMake};

use crate::{diagonalise, list_points};
use checks::{all_cells_within, copies, in_range};
use definitions::limits::{MOST_COPIES, MOST_LISTED, MOST_SITES};
use definitions::{Basis, Cells, Linear, Point, Position, PrimSite, Refusal, Verdict};
use lent::{Zero, clear, lacks_room};
use math_real::position;
use math_real::whole::inverse_of_c;
use math_snf::SmithForm;
use std::num::nearest_i64_to_f64;

// How many entries each of the four lists has room for: positions, points, mapping, elements.
type Rooms = [usize; 4];

// ---- the copy of one site at one point

fn real_point(f: Point) -> Position
    ensures { result ≡ point_of f }
{
    let x = nearest_i64_to_f64(f[0]);
    let y = nearest_i64_to_f64(f[1]);
    let z = nearest_i64_to_f64(f[2]);
    Position { x, y, z }
}

// C⁻¹((p + point) - 0) % 1: the conventional cell keeps the origin
fn copy_at(inverse: Basis, p: Position, f: Point) -> Cells
    ensures { result ≡ copy_cells inverse p f }
{
    let origin = Position {
        x: 0.0,
        y: 0.0,
        z: 0.0,
    };
    let moved = position::sub(position::add(p, real_point(f)), origin);
    let copy = position::apply(inverse, moved);
    let reduced = position::remainder(copy);
    Cells::from(reduced)
}

// ---- every run, and zero behind them

// the run i: `entry(i, k)` at each place k of it
fn put_run<T: Copy, F: Fn(usize, usize) -> T>(i: usize, run: &mut [T], entry: &F)
    requires { CanMake F.Fn entry.now (i + 1) (length run.old) }
    ensures { (made : List T) → length made ≡ length run.old → MakesRun F.Fn entry.now i made → run.new ≡ made }
{
    for (k, x) in run.iter_mut().enumerate() {
        *x = entry(i, k);
    }
}

// n runs of m entries and zero behind them: `entry(i, k)` at the place k of the run i
fn list_runs<T: Zero, F: Fn(usize, usize) -> T>(n: usize, m: usize, out: &mut [T], entry: F)
    requires room { n * m ≤ length out.old }
    requires callable { CanMake F.Fn entry n m }
    ensures { (made : List T) → length made ≡ n * m → Makes F.Fn entry n m made →
        out.new ≡ padded T.ZERO made (length out.old) }
{
    // no `chunks_exact_mut`, which takes no length 0: there may be no points
    for i in 0..n {
        put_run(i, &mut out[i * m..i * m + m], &entry);
    }
    clear(out, n * m);
}

fn list_positions(inverse: Basis, points: &[Point], positions: &[Cells], out: &mut [Cells])
    requires { length positions.now * length points.now ≤ length out.old }
    ensures { out.new
        ≡ padded zero_cells (each (run_cells inverse points.now) positions.now)
        (length out.old) }
{
    list_runs(
        positions.len(),
        points.len(),
        out,
        |i, k|
            requires { (i < length positions.now) × (k < length points.now) }
            ensures { result ≡ copy_cells inverse
                (position_from (slice_index_or positions.entry.now i []))
                (slice_index_or points.entry.now k []) }
        { copy_at(inverse, Position::from(positions[i]), points[k]) },
    );
}

fn list_run_points(points: &[Point], n: usize, out: &mut [Point])
    requires { n * length points.now ≤ length out.old }
    ensures { out.new ≡ padded zero_point (listed_points n points.now) (length out.old) }
{
    list_runs(
        n,
        points.len(),
        out,
        |_, k|
            requires { k < length points.now }
            ensures { result ≡ slice_index_or points.entry.now k [] }
        { points[k] },
    );
}

// What the mapping holds in the run of a primitive site.
fn site_number(i: PrimSite) -> u16
    requires { i.0 < most_sites }
    ensures { result ≡ i.0 }
{
    i.0 as u16
}

fn list_mapping(n: usize, m: usize, mapping: &mut [u16])
    requires { (n ≤ most_sites) × (n * m ≤ length mapping.old) }
    ensures { mapping.new ≡ padded 0 (site_mapping n m) (length mapping.old) }
{
    list_runs(n, m, mapping, |i, _| site_number(PrimSite(i)));
}

fn list_elements(elements: &[i32], m: usize, out: &mut [i32])
    requires { length elements.now * m ≤ length out.old }
    ensures { out.new ≡ padded (pos 0) (listed_elements elements.now m) (length out.old) }
{
    list_runs(elements.len(), m, out, |i, _| elements[i]);
}

// ---- the primitive sites

// The primitive sites, as they are lent: an element and a position a site.
#[derive(Clone, Copy)]
pub struct PrimitiveSites<'a> {
    pub elements: &'a [i32],
    pub positions: &'a [Cells],
}

impl PrimitiveSites<'_> {
    // too many, or not as many elements as positions
    fn bad_counts(&self) -> bool
        ensures { result ≡ (too_many_sites (length self.now.positions.now)
            || unlike (length self.now.elements.now) (length self.now.positions.now)) }
    {
        MOST_SITES < self.positions.len() || self.elements.len() != self.positions.len()
    }

    // whether there may be m copies of each, and the lists have room for them
    fn can_list(&self, m: usize, rooms: Rooms) -> bool
        ensures { result ≡ listable (length self.now.positions.now) (length self.now.elements.now) m rooms }
    {
        !self.bad_counts() && m <= MOST_COPIES && !lacks_room(self.positions.len() * m, rooms)
    }
}

// ---- the four lists

// The lent lists of a listing: an entry a listed site in each.
#[derive(Drop)]
pub struct Listing<'a> {
    pub positions: &'a mut [Cells],
    pub points: &'a mut [Point],
    pub mapping: &'a mut [u16],
    pub elements: &'a mut [i32],
}

impl Listing<'_> {
    fn rooms(&self) -> Rooms
        ensures { result ≡ listing_rooms (held self.now) }
    {
        [
            self.positions.len(),
            self.points.len(),
            self.mapping.len(),
            self.elements.len(),
        ]
    }

    fn clear(&mut self)
        ensures cleared { HoldsListing (held self.old) (held self.new) nothing_listed }
        ensures rooms { SameRooms (held self.old) (held self.new) }
        ensures same_lists { SameLists self.old self.new }
    {
        clear(self.positions, 0);
        clear(self.points, 0);
        clear(self.mapping, 0);
        clear(self.elements, 0);
    }
}

// ---- the calls

// moyo's `transform_cell` at given points: nothing where the lists have no room
pub fn list_copies(c: Linear, points: &[Point], sites: &PrimitiveSites, listing: &mut Listing)
    ensures listed { CopiesListed c points.now sites.now.elements.now sites.now.positions.now
        (held listing.old) (held listing.new) }
    ensures rooms { SameRooms (held listing.old) (held listing.new) }
    ensures same_lists { SameLists listing.old listing.new }
{
    let n = sites.positions.len();
    let m = points.len();
    if sites.can_list(m, listing.rooms()) {
        list_positions(inverse_of_c(c), points, sites.positions, listing.positions);
        list_run_points(points, n, listing.points);
        list_mapping(n, m, listing.mapping);
        list_elements(sites.elements, m, listing.elements);
    } else {
        listing.clear();
    }
}

// 2, 3, 4, 7, 8, 9, 10
fn diagonalise_for_sites(
    c: Linear,
    sites: &PrimitiveSites,
    rooms: Rooms,
) -> Result<SmithForm, Refusal>
    ensures { Returns (list_conditions c sites.now.elements.now sites.now.positions.now rooms) (IsSnf c)
        (outcome state_of result) }
{
    if sites.bad_counts() {
        return Err(Refusal::Counts);
    }
    if !in_range(c) {
        return Err(Refusal::MatrixEntry);
    }
    if !all_cells_within(sites.positions) {
        return Err(Refusal::FloatRange);
    }
    let form = diagonalise(c)?;
    let listed = sites.positions.len() * copies(c);
    if MOST_LISTED < listed {
        return Err(Refusal::ListedSites);
    }
    if lacks_room(listed, rooms) {
        return Err(Refusal::Buffer);
    }
    Ok(form)
}

// the copies at the points of the diagonalisation
fn list_all(c: Linear, form: SmithForm, sites: &PrimitiveSites, listing: &mut Listing)
    requires { (Ready form.d most_copies) × (length (points (state_of form)) ≡ Limits.copies c) }
    ensures listed { CopiesListed c (points (state_of form)) sites.now.elements.now sites.now.positions.now
        (held listing.old) (held listing.new) }
    ensures rooms { SameRooms (held listing.old) (held listing.new) }
    ensures same_lists { SameLists listing.old listing.new }
{
    let mut points = [Point::ZERO; MOST_COPIES];
    list_points(form, &mut points);
    let m = copies(c);
    list_copies(c, &points[..m], sites, listing);
}

// moyo's `transform_cell` at no change of origin: the copies of given positions
pub fn list_sites(c: Linear, sites: &PrimitiveSites, listing: &mut Listing) -> Verdict
    ensures listed { ListPromise c sites.now.elements.now sites.now.positions.now
        (held listing.old) (held listing.new) result }
    ensures rooms { SameRooms (held listing.old) (held listing.new) }
    ensures same_lists { SameLists listing.old listing.new }
{
    match diagonalise_for_sites(c, sites, listing.rooms()) {
        Ok(form) => {
            list_all(c, form, sites, listing);
            Ok(())
        }
        Err(refusal) => {
            listing.clear();
            Err(refusal)
        }
    }
}
