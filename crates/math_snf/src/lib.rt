// moyo's math/snf.rs: `SNF::new`, the diagonalisation of a matrix of whole numbers; and how many passes it takes.
#![tactic(auto)]

mod line;

ghost use Rattle.std.specs.Prelude.{◌≡◌, cond, [], ◌∷◌, ◌<◌, ◌≤◌, ◌-ℤ◌, ◌*ℤ◌, true, false, MatchResult};
ghost use Rattle.std.specs.Int.Signed.{quot_z};
ghost use Rattle.std.specs.List.{list_all};
ghost use Rattle.definitions.specs.Matrix.{at, item, three, identity};
ghost use Rattle.definitions.specs.Snf.{swapped, swap_rows, swap_columns, row, column};
ghost use Rattle.definitions.specs.Snf.{pivot, moved, signed, cleared};
ghost use Rattle.math_snf_laws.specs.Cases.{plain};
ghost use Rattle.math_snf_laws.specs.Stages.{most};
ghost use Rattle.math_snf.specs.Step.{kept, kept_row, kept_column, kept_line, state_of, Graded, row_below};
ghost use Rattle.math_snf.specs.Step.{column_right, place_of, most_passes, Passed, EndedIn, RanIn, LeftIn};
ghost use Rattle.math_snf.specs.Key.{key_at, pair_key, row_key, least_key};
ghost use Rattle.definitions.specs.Calls.{SnfPromise, PassesPromise};
ghost use Rattle.definitions.specs.Limits.{small};
ghost use Rattle.definitions.specs.Refusal.{outcome};
ghost use Rattle.math_snf.specs.declared.Grade.TheVariants.{Strayed};

use checks::in_range;
use definitions::{Linear, Passes, Refusal, SnfMatrix, Stages};
use line::{FIRST, Line, SECOND, THIRD};
use math_matrix::widened;

// Past the key of every place. A number and no Option: the least of two numbers is `min`, of two Options a match of
// their cases, for here none comes last.
const NO_KEY: usize = 1000000;

const UNIT: SnfMatrix = [[1, 0, 0], [0, 1, 0], [0, 0, 1]];

// ---- entries

fn within(x: i64) -> bool
    ensures { result ≡ small x }
{
    (-511..=511).contains(&x)
}

fn is_small(x: i16) -> bool
    ensures { result ≡ small x }
{
    within(i64::from(x))
}

// 512 stands for a number that has left -511..511. No Option is plainer: a line is written whole, beside entries that
// stay, and then tested once; by Options a matrix would be handed on that is written in part.
#[tactic(auto, unfolding(crate::specs::Step::kept))]
fn kept_entry(x: i64) -> i16
    ensures { result ≡ kept x }
{
    if within(x) { x as i16 } else { 512 }
}

// x - k y
fn less_times(x: i16, k: i32, y: i16) -> i64
    ensures { result ≡ x -ℤ k *ℤ y }
{
    i64::from(x) - i64::from(k) * i64::from(y)
}

// Cut toward 0; by 0 it is 0. `checked_div` proves too, but tests for -1 as well: it took a fifth to two fifths longer.
fn quotient(x: i16, y: i16) -> i32
    ensures { result ≡ quot_z x y }
{
    if y == 0 {
        0
    } else {
        i32::from(x) / i32::from(y)
    }
}

// ---- matrices

// what is kept of the row x less k times the row y
fn less_line(x: [i16; 3], k: i32, y: [i16; 3]) -> [i16; 3]
    ensures { result ≡ three (λ b. kept (item x b -ℤ k *ℤ item y b)) }
{
    [
        kept_entry(less_times(x[0], k, y[0])),
        kept_entry(less_times(x[1], k, y[1])),
        kept_entry(less_times(x[2], k, y[2])),
    ]
}

// m with row i less k times row s
fn less_row(m: SnfMatrix, i: Line, k: i32, s: Line) -> SnfMatrix
    ensures { result ≡ kept_row i.at k s.at m }
{
    let mut n = m;
    n[i.at] = less_line(m[i.at], k, m[s.at]);
    n
}

// the row x; at j, what is kept of x[j] less k times x[s]
fn less_at(x: [i16; 3], j: Line, k: i32, s: Line) -> [i16; 3]
    ensures { result ≡ kept_line j.at k s.at x }
{
    let mut y = x;
    y[j.at] = kept_entry(less_times(x[j.at], k, x[s.at]));
    y
}

// m with column j less k times column s
fn less_column(m: SnfMatrix, j: Line, k: i32, s: Line) -> SnfMatrix
    ensures { result ≡ kept_column j.at k s.at m }
{
    [
        less_at(m[0], j, k, s),
        less_at(m[1], j, k, s),
        less_at(m[2], j, k, s),
    ]
}

// Rows and columns are read at the places that they come from. The library's `swap` was tried: it writes at an index
// what is next read in one piece, and a whole `snf` took a seventh to a quarter longer.
fn swap_index(a: Line, b: Line, i: Line) -> Line
    ensures { result.at ≡ swapped a.at b.at i.at }
{
    if i.at == a.at {
        b
    } else if i.at == b.at {
        a
    } else {
        i
    }
}

fn swap_rows(m: SnfMatrix, a: Line, b: Line) -> SnfMatrix
    ensures { result ≡ swap_rows a.at b.at m }
{
    let p = swap_index(a, b, FIRST);
    let q = swap_index(a, b, SECOND);
    let t = swap_index(a, b, THIRD);
    [m[p.at], m[q.at], m[t.at]]
}

// three entries of a row
fn picked(x: [i16; 3], p: Line, q: Line, t: Line) -> [i16; 3]
    ensures { result ≡ item x p.at ∷ item x q.at ∷ item x t.at ∷ [] }
{
    [x[p.at], x[q.at], x[t.at]]
}

fn swap_columns(m: SnfMatrix, a: Line, b: Line) -> SnfMatrix
    ensures { result ≡ swap_columns a.at b.at m }
{
    let p = swap_index(a, b, FIRST);
    let q = swap_index(a, b, SECOND);
    let t = swap_index(a, b, THIRD);
    [
        picked(m[0], p, q, t),
        picked(m[1], p, q, t),
        picked(m[2], p, q, t),
    ]
}

fn line_small(x: [i16; 3]) -> bool
    ensures { result ≡ list_all small x }
{
    x.iter().all(|e| is_small(*e))
}

fn row_small(m: SnfMatrix, i: Line) -> bool
    ensures { result ≡ list_all small (row i.at m) }
{
    line_small(m[i.at])
}

fn column_small(m: SnfMatrix, j: Line) -> bool
    ensures { result ≡ list_all small (column j.at m) }
{
    line_small([m[0][j.at], m[1][j.at], m[2][j.at]])
}

// ---- the pivot

// The key of a place orders as the pivot does: by the magnitude, then by the place in row order. The least key is had
// without a branch: which entry is the least is what a processor guesses wrong.
#[tactic(auto, unfolding(crate::specs::Key::key_at))]
fn key_at(m: SnfMatrix, i: Line, j: Line) -> usize
    ensures { result ≡ key_at m i.at j.at }
{
    let a = usize::from(m[i.at][j.at].unsigned_abs());
    if a == 0 {
        return NO_KEY;
    }
    16 * a + 4 * i.at + j.at
}

// the least key of a row's last two places, and of its three
fn pair_key(m: SnfMatrix, i: Line) -> usize
    ensures { result ≡ pair_key m i.at }
{
    key_at(m, i, SECOND).min(key_at(m, i, THIRD))
}

fn row_key(m: SnfMatrix, i: Line) -> usize
    ensures { result ≡ row_key m i.at }
{
    key_at(m, i, FIRST).min(pair_key(m, i))
}

#[tactic(auto, unfolding(crate::specs::Key::least_key))]
fn least_key(m: SnfMatrix, s: Line) -> usize
    ensures { result ≡ least_key s.at m }
{
    match s.at {
        0 => row_key(m, FIRST).min(row_key(m, SECOND).min(row_key(m, THIRD))),
        1 => pair_key(m, SECOND).min(pair_key(m, THIRD)),
        _ => key_at(m, THIRD, THIRD),
    }
}

// of least magnitude, the first in row order: its row and column
fn pivot_from(m: SnfMatrix, s: Line) -> Option<(Line, Line)>
    ensures result_value { place_of result ≡ pivot s.at m }
    ensures m_bound { most m (pivot s.at m) ≤ most_passes }
{
    let k = least_key(m, s);
    if k == NO_KEY {
        return None;
    }
    Some((Line { at: k / 4 % 4 }, Line { at: k % 4 }))
}

// ---- the steps of a pass

// what a step has done, and of two steps the greater
#[derive(Clone, Copy, PartialEq, Eq, PartialOrd, Ord)]
enum Grade {
    // nothing was cleared
    Idle,
    Cleared,
    // an assigned entry has left the range
    Strayed,
}

fn graded(ok: bool, g: Grade) -> Grade
    ensures { result ≡ cond ok g Strayed }
{
    if ok { g } else { Grade::Strayed }
}

// moyo's `SNF`: D = L m R. The steps take and leave D, L and R as they stand.
#[derive(Clone, Copy)]
pub struct SmithForm {
    pub d: SnfMatrix,
    pub l: SnfMatrix,
    pub r: SnfMatrix,
}

fn counted(first: usize, second: usize, third: usize) -> Stages
    ensures { result ≡ record { first = first; second = second; third = third } }
{
    Stages {
        first,
        second,
        third,
    }
}

impl SmithForm {
    #[tactic(auto, unfolding(definitions::specs::Snf::moved))]
    fn move_pivot(&mut self, s: Line, i: Line, j: Line)
        ensures { state_of self.new ≡ moved s.at (i.at, j.at) (state_of self.old) }
    {
        self.d = swap_columns(swap_rows(self.d, s, i), s, j);
        self.l = swap_rows(self.l, s, i);
        self.r = swap_columns(self.r, s, j);
    }

    // a negative pivot negates its column: the column less twice itself
    fn sign(&mut self, s: Line) -> Grade
        ensures { Graded (signed s.at (state_of self.old)) result (state_of self.new) }
    {
        if 0 <= self.d[s.at][s.at] {
            return Grade::Idle;
        }
        self.d = less_column(self.d, s, 2, s);
        self.r = less_column(self.r, s, 2, s);
        graded(
            column_small(self.d, s) & column_small(self.r, s),
            Grade::Idle,
        )
    }

    fn clear_row(&mut self, s: Line, i: Line) -> Grade
        ensures { Graded (row_below s.at i.at (plain (state_of self.old))) result (state_of self.new) }
    {
        if i.at <= s.at {
            return Grade::Idle;
        }
        let k = quotient(self.d[i.at][s.at], self.d[s.at][s.at]);
        if k == 0 {
            return Grade::Idle;
        }
        self.d = less_row(self.d, i, k, s);
        self.l = less_row(self.l, i, k, s);
        graded(row_small(self.d, i) & row_small(self.l, i), Grade::Cleared)
    }

    fn clear_column(&mut self, s: Line, j: Line) -> Grade
        ensures { Graded (column_right s.at j.at (plain (state_of self.old))) result (state_of self.new) }
    {
        if j.at <= s.at {
            return Grade::Idle;
        }
        let k = quotient(self.d[s.at][j.at], self.d[s.at][s.at]);
        if k == 0 {
            return Grade::Idle;
        }
        self.d = less_column(self.d, j, k, s);
        self.r = less_column(self.r, j, k, s);
        graded(
            column_small(self.d, j) & column_small(self.r, j),
            Grade::Cleared,
        )
    }

    fn sweep(&mut self, s: Line) -> Grade
        ensures { Graded (cleared s.at (signed s.at (state_of self.old))) result (state_of self.new) }
    {
        self.sign(s)
            .max(self.clear_row(s, SECOND))
            .max(self.clear_row(s, THIRD))
            .max(self.clear_column(s, SECOND))
            .max(self.clear_column(s, THIRD))
    }

    // A pass, if a pivot is left to choose: "Count a pass each time a nonzero pivot is chosen" (request M-113 of
    // document 02). That the first pivot allows few passes is for the sum of the counts, which must not overflow.
    fn one_pass(&mut self, s: Line) -> Option<Grade>
        ensures passed { Passed s.at (state_of self.old) result (state_of self.new) }
        ensures d_bound { most self.old.d (pivot s.at self.old.d) ≤ most_passes }
    {
        let (i, j) = pivot_from(self.d, s)?;
        self.move_pivot(s, i, j);
        Some(self.sweep(s))
    }

    // The passes of a stage; an Err has those begun up to where an assigned entry has left the range.
    fn stage(&mut self, s: Line) -> Result<usize, usize>
        ensures { MatchResult result (λ n. EndedIn s.at (state_of self.old) true n (state_of self.new))
            (λ n. EndedIn s.at (state_of self.old) false n (state_of self.new)) }
    {
        let mut n: usize = 0;
        while let Some(grade) = self.one_pass(s) {
            n += 1;
            match grade {
                Grade::Idle => return Ok(n),
                Grade::Cleared => {}
                Grade::Strayed => return Err(n),
            }
        }
        Ok(n)
    }

    // D = m, L and R the identity, and the three stages; one that has left the range is the last
    fn run(m: Linear) -> Result<(SmithForm, Stages), Stages>
        ensures { MatchResult result (λ a. RanIn m true a.1 (state_of a.0)) (λ n. LeftIn m n) }
    {
        let mut t = SmithForm {
            d: widened(m),
            l: UNIT,
            r: UNIT,
        };
        let first = t.stage(FIRST).map_err(|n| counted(n, 0, 0))?;
        let second = t.stage(SECOND).map_err(|n| counted(first, n, 0))?;
        let third = t.stage(THIRD).map_err(|n| counted(first, second, n))?;
        Ok((t, counted(first, second, third)))
    }
}

// moyo's `SNF::new`: D = L m R, or a refusal
pub fn snf(m: Linear) -> Result<SmithForm, Refusal>
    ensures { SnfPromise m (outcome state_of result) }
{
    if !in_range(m) {
        return Err(Refusal::MatrixEntry);
    }
    match SmithForm::run(m) {
        Ok((t, _)) => Ok(t),
        Err(_) => Err(Refusal::Diagonalisation),
    }
}

// How many passes each stage of `SNF::new` takes (request M-113 of document 02). moyo has no such function.
pub fn passes(m: Linear) -> Passes
    ensures { PassesPromise m result }
{
    if !in_range(m) {
        return Passes::Outside;
    }
    match SmithForm::run(m) {
        Ok((_, n)) => Passes::Counted(n),
        Err(n) => Passes::Left(n),
    }
}
