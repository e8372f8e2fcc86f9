// The types that document 01 names, the refusals and the limits. The definitions about them stand in specs/, in 01's
// order.
#![tactic(auto)]

ghost use Rattle.std.specs.Prelude.{◌≡◌};
ghost use Rattle.definitions.specs.Lent.{position_from, cells_of};
ghost use Rattle.definitions.specs.Refusal.{number};

pub mod limits;

// ---- three rows of three

// A rotation of an operation, a target or the conventional cell, as a job gives it: the type carries a bound.
pub type Rotation = [[i8; 3]; 3];

// The change to the selected primitive basis, T (moyo's UnimodularLinear), and the centring matrix, C (moyo's Linear).
pub type Linear = [[i8; 3]; 3];

// D, L or R of a diagonalisation.
pub type SnfMatrix = [[i16; 3]; 3];

// The cofactors of one of these, or its inverse: they fit as long as the entries do.
pub type Cofactors = [[i32; 3]; 3];

// Exact products of whole numbers.
pub type Integers = [[i64; 3]; 3];

// A basis, its vectors the columns; a metric tensor, a factor of one.
pub type Basis = [[f64; 3]; 3];

// ---- lent entries

// A position or a translation in a lent list.
pub type Cells = [f64; 3];

// The integer point of a listed site.
pub type Point = [i64; 3];

// The coordinates of a candidate, padded with spaces.
pub type Text = [u8; 64];

// ---- types of their own

// A position: three fractions of a basis.
#[derive(Clone, Copy)]
pub struct Position {
    pub x: f64,
    pub y: f64,
    pub z: f64,
}

impl From<Cells> for Position {
    ghost from_gives = { λ v p. p ≡ position_from v };

    fn from(v: Cells) -> Position
        ensures { result ≡ position_from v }
    {
        Position {
            x: v[0],
            y: v[1],
            z: v[2],
        }
    }
}

impl From<Position> for Cells {
    ghost from_gives = { λ p v. v ≡ cells_of p };

    fn from(p: Position) -> Cells
        ensures { result ≡ cells_of p }
    {
        [p.x, p.y, p.z]
    }
}

// The number of a primitive site.
#[derive(Clone, Copy)]
pub struct PrimSite(pub usize);

// The number of a listed site. A primitive site number is never accepted for one.
#[derive(Clone, Copy)]
pub struct ListedSite(pub usize);

// The seven centrings (moyo's data/centering.rs).
#[derive(Clone, Copy)]
pub enum Centering {
    P,
    A,
    B,
    C,
    I,
    R,
    F,
}

// Where a position fits a candidate: the offset's place, and the distance. A match that misses is no `Fit`.
#[derive(Clone, Copy)]
pub struct Fit {
    pub place: usize,
    pub distance: f64,
}

// The refusals, in the order in which they are checked. Their numbers stand in definitions/specs/Refusal.antt, and here
// once, for what C and a report are told.
#[derive(Clone, Copy, PartialEq, Eq, PartialOrd, Ord)]
pub enum Refusal {
    JobBytes,
    Counts,
    MatrixEntry,
    FloatRange,
    SiteImage,
    Coordinates,
    Determinant,
    Diagonalisation,
    ListedSites,
    Buffer,
    TargetRotation,
    Lattice,
    OrbitFit,
}

impl From<Refusal> for usize {
    ghost from_gives = { λ r n. n ≡ number r };

    fn from(r: Refusal) -> usize
        ensures { result ≡ number r }
    {
        match r {
            Refusal::JobBytes => 1,
            Refusal::Counts => 2,
            Refusal::MatrixEntry => 3,
            Refusal::FloatRange => 4,
            Refusal::SiteImage => 5,
            Refusal::Coordinates => 6,
            Refusal::Determinant => 7,
            Refusal::Diagonalisation => 8,
            Refusal::ListedSites => 9,
            Refusal::Buffer => 10,
            Refusal::TargetRotation => 11,
            Refusal::Lattice => 12,
            Refusal::OrbitFit => 13,
        }
    }
}

// What a call says whose answer stands in lent lists: accepted, or refused.
pub type Verdict = Result<(), Refusal>;

// What the whole call says of an accepted answer: the numbers of its listed sites and of its orbits.
#[derive(Clone, Copy)]
pub struct AnswerCounts {
    pub sites: usize,
    pub orbits: usize,
}

// How many of each command a job has.
#[derive(Clone, Copy)]
pub struct JobCounts {
    pub sites: usize,
    pub operations: usize,
    pub images: usize,
    pub targets: usize,
    pub rotations: usize,
    pub candidates: usize,
}

// The bases of one lattice: of the conventional cell, of the primitive cell, and of the cell that is listed.
#[derive(Clone, Copy)]
pub struct Bases {
    pub conventional: Basis,
    pub primitive: Basis,
    pub listed: Basis,
}

// How many passes each of the three stages of a diagonalisation has.
#[derive(Clone, Copy)]
pub struct Stages {
    pub first: usize,
    pub second: usize,
    pub third: usize,
}

// What the call that counts the passes of a diagonalisation says: the passes of each stage; where an assigned entry
// leaves its range, those begun up to there; or that an entry of the matrix is outside its own.
#[derive(Clone, Copy)]
pub enum Passes {
    Counted(Stages),
    Left(Stages),
    Outside,
}
