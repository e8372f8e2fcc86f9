// Limits that several functions test or lend by, as definitions/specs/Limits.antt has them. A range that is no limit of
// a lent value stands where it is tested: -31..31 in checks and data_wyckoff, -511..511 in math_snf.
pub const MOST_BYTES: usize = 65536;

pub const MOST_SITES: usize = 256;

pub const MOST_OPERATIONS: usize = 96;

// The images of the most permutations of the most sites.
pub const MOST_IMAGES: usize = 24576;

pub const MOST_CANDIDATES: usize = 64;

pub const MOST_COPIES: usize = 64;

pub const MOST_LISTED: usize = 1024;

pub const LATTICE_LIMIT: f64 = 1000000.0;

pub const POSITION_LIMIT: f64 = 1000.0;

pub const SYMPREC_LIMIT: f64 = 1000.0;
