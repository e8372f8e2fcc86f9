// Where the commands of a job stand. Each has a fixed width: L 73 bytes, T 34, C 10, S 29, O 34, P 2, G 34, R 10, W 68,
// N 9, Z 1.
ghost use Rattle.std.specs.Prelude.{◌+◌, ◌<◌, ◌≤◌, ◌≡◌, length};
ghost use Rattle.job.specs.Places.{Run, Layout, Opens, Closes, symprec_from};
ghost use Rattle.job.specs.Counted.{Decided, Counted, more_than};
ghost use Rattle.job.specs.Given.{takes_up};

use definitions::limits::MOST_BYTES;
use definitions::{JobCounts, Refusal};

// L, T and C, which stand first
pub(crate) const OPENING: usize = 117;
// S
pub(crate) const SITE: usize = 29;
// O and G
pub(crate) const OPERATION: usize = 34;
// P
pub(crate) const IMAGE: usize = 2;
// R
pub(crate) const ROTATION: usize = 10;
// W
pub(crate) const CANDIDATE: usize = 68;

// How many commands of one kind stand one behind the other from a place on; one that is cut is not counted.
fn count_run(bytes: &[u8], at: usize, command: u8, width: usize) -> usize
    requires { (at ≤ length bytes.now) × (1 ≤ width) }
    ensures { Run command width bytes.now at result }
{
    let whole = (bytes.len() - at) / width;
    let other = (0..whole).find(|n| bytes[at + *n * width] != command);
    other.unwrap_or(whole)
}

// The six runs behind L, T and C.
fn layout(bytes: &[u8]) -> JobCounts
    requires { 117 ≤ length bytes.now }
    ensures { Layout bytes.now result }
{
    let sites = count_run(bytes, OPENING, b'S', SITE);
    let operations_from = OPENING + sites * SITE;
    let operations = count_run(bytes, operations_from, b'O', OPERATION);
    let images_from = operations_from + operations * OPERATION;
    let images = count_run(bytes, images_from, b'P', IMAGE);
    let targets_from = images_from + images * IMAGE;
    let targets = count_run(bytes, targets_from, b'G', OPERATION);
    let rotations_from = targets_from + targets * OPERATION;
    let rotations = count_run(bytes, rotations_from, b'R', ROTATION);
    let candidates_from = rotations_from + rotations * ROTATION;
    let candidates = count_run(bytes, candidates_from, b'W', CANDIDATE);
    JobCounts {
        sites,
        operations,
        images,
        targets,
        rotations,
        candidates,
    }
}

// The place of N behind the six runs.
pub(crate) fn symprec_from(k: JobCounts) -> usize
    requires { symprec_from k < 18446744073709551616 }
    ensures { result ≡ symprec_from k }
{
    let runs = OPENING + k.sites * SITE + k.operations * OPERATION + k.images * IMAGE;
    runs + k.targets * OPERATION + k.rotations * ROTATION + k.candidates * CANDIDATE
}

// Whether L, T and C stand first.
fn opens(bytes: &[u8]) -> bool
    ensures { Decided (Opens bytes.now) result }
{
    OPENING <= bytes.len() && bytes[0] == b'L' && bytes[73] == b'T' && bytes[107] == b'C'
}

// Whether N and Z stand last.
fn closes(bytes: &[u8], at: usize) -> bool
    requires { at ≤ length bytes.now }
    ensures { Decided (Closes bytes.now at) result }
{
    bytes.len() - at == 10 && bytes[at] == b'N' && bytes[at + 9] == b'Z'
}

// Whether there are more of a command than a limit says.
pub fn more_than(most: JobCounts, k: JobCounts) -> bool
    ensures { result ≡ more_than most k }
{
    let sites = most.sites < k.sites;
    let operations = most.operations < k.operations;
    let images = most.images < k.images;
    let targets = most.targets < k.targets;
    let rotations = most.rotations < k.rotations;
    let candidates = most.candidates < k.candidates;
    sites | operations | images | targets | rotations | candidates
}

// A job has no more of any command than bytes; of so many the place of N is a number that fits.
const MOST_EACH: JobCounts = JobCounts {
    sites: MOST_BYTES,
    operations: MOST_BYTES,
    images: MOST_BYTES,
    targets: MOST_BYTES,
    rotations: MOST_BYTES,
    candidates: MOST_BYTES,
};

// Whether so many of each command take up so many bytes, and a job may have these.
pub(crate) fn takes_up(k: JobCounts, bytes: usize) -> bool
    ensures { result ≡ takes_up k bytes }
{
    if MOST_BYTES < bytes {
        return false;
    }
    if more_than(MOST_EACH, k) {
        return false;
    }
    symprec_from(k) + 10 == bytes
}

// The numbers of commands if the bytes are a job, else 1.
pub fn counted(bytes: &[u8]) -> Result<JobCounts, Refusal>
    ensures { Counted bytes.now result }
{
    if MOST_BYTES < bytes.len() {
        return Err(Refusal::JobBytes);
    }
    if !opens(bytes) {
        return Err(Refusal::JobBytes);
    }
    let k = layout(bytes);
    let end = symprec_from(k);
    if !closes(bytes, end) {
        return Err(Refusal::JobBytes);
    }
    Ok(k)
}
