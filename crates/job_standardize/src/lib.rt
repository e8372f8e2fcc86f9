// The whole call on a job's bytes: they are read into lists of the job's own lengths, and the call on lists answers.
#![tactic(auto)]

ghost use Rattle.std.specs.Prelude.{◌≡◌, ◌≤◌, length};
ghost use Rattle.definitions.specs.Limits.{most_images};
ghost use Rattle.definitions.specs.WholeCalls.{ListsPromise, BytesPromise};
ghost use Rattle.job.specs.Given.{given_in, SameJob, rooms_of};
ghost use Rattle.job.specs.Counted.{JobOf, Within};
ghost use Rattle.symmetrize_standardize.specs.Given.{answer_cells, SameAnswer};
ghost use Rattle.job_standardize.specs.Counts.{most_legal};
ghost use Rattle.job_standardize.specs.Counted.{Legal};
ghost use Rattle.job_standardize.specs.Rooms.{JustRoom};

use definitions::limits::{MOST_CANDIDATES, MOST_IMAGES, MOST_OPERATIONS, MOST_SITES};
use definitions::{
    AnswerCounts, Basis, Cells, JobCounts, Linear, Position, Refusal, Rotation, Text,
};
use job::layout::{counted, more_than};
use job::{JobLists, read_counted};
use lent::Zero;
use symmetrize_standardize::{Answer, Job, USUAL_IMAGES, standardize};

// ---- counts

// The most of each command that a legal job may have.
const MOST_LEGAL: JobCounts = JobCounts {
    sites: MOST_SITES,
    operations: MOST_OPERATIONS,
    images: MOST_IMAGES,
    targets: MOST_OPERATIONS,
    rotations: MOST_OPERATIONS,
    candidates: MOST_CANDIDATES,
};

// How many of each command there are: 1 if the bytes are no job, 2 if there are too many.
fn legal_counts(bytes: &[u8]) -> Result<JobCounts, Refusal>
    ensures { Legal bytes.now result }
{
    let k = counted(bytes)?;
    if more_than(MOST_LEGAL, k) {
        return Err(Refusal::Counts);
    }
    Ok(k)
}

// ---- the call

// The call on the lists of a job that was read: apart, since they are only read here.
fn standardize_lists(lists: &JobLists, answer: &mut Answer) -> Result<AnswerCounts, Refusal>
    ensures standardized { ListsPromise (given_in lists.now)
        (answer_cells answer.old) (answer_cells answer.new) result }
    ensures same_answer { SameAnswer answer.old answer.new }
{
    let job = Job {
        lattice: lists.lattice,
        t: lists.t,
        shift: Position::from(lists.shift),
        c: lists.c,
        elements: lists.elements,
        positions: lists.positions,
        rotations: lists.rotations,
        translations: lists.translations,
        images: lists.images,
        rotations_of_targets: lists.rotations_of_targets,
        translations_of_targets: lists.translations_of_targets,
        conventional: lists.conventional,
        multiplicities: lists.multiplicities,
        letters: lists.letters,
        texts: lists.texts,
        symprec: lists.symprec,
    };
    standardize(&job, answer)
}

// The job is read into lists that have just its room, so that the reading cannot refuse, and the call on lists answers.
fn standardize_read(
    bytes: &[u8],
    k: JobCounts,
    lists: &mut JobLists,
    answer: &mut Answer,
) -> Result<AnswerCounts, Refusal>
    requires { JustRoom bytes.now k (rooms_of (given_in lists.old)) }
    ensures standardized { BytesPromise bytes.now (answer_cells answer.old) (answer_cells answer.new) result }
    ensures same_lists { SameJob lists.old lists.new }
    ensures same_answer { SameAnswer answer.old answer.new }
{
    read_counted(bytes, k, lists);
    standardize_lists(lists, answer)
}

// The same over lists of the greatest lengths, of which only the fronts are lent; the caller has the images.
fn standardize_counted(
    bytes: &[u8],
    k: JobCounts,
    images: &mut [u8],
    answer: &mut Answer,
) -> Result<AnswerCounts, Refusal>
    requires { JobOf bytes.now k × Within most_legal k × (length images.old ≡ k.images) }
    ensures standardized { BytesPromise bytes.now (answer_cells answer.old) (answer_cells answer.new) result }
    ensures same_answer { SameAnswer answer.old answer.new }
{
    let mut elements = [0i32; MOST_SITES];
    let mut positions = [Cells::ZERO; MOST_SITES];
    let mut rotations = [Rotation::ZERO; MOST_OPERATIONS];
    let mut translations = [Cells::ZERO; MOST_OPERATIONS];
    let mut rotations_of_targets = [Rotation::ZERO; MOST_OPERATIONS];
    let mut translations_of_targets = [Cells::ZERO; MOST_OPERATIONS];
    let mut conventional = [Rotation::ZERO; MOST_OPERATIONS];
    let mut multiplicities = [0u16; MOST_CANDIDATES];
    let mut letters = [0u8; MOST_CANDIDATES];
    let mut texts = [Text::ZERO; MOST_CANDIDATES];
    let mut lists = JobLists {
        lattice: Basis::ZERO,
        t: Linear::ZERO,
        shift: Cells::ZERO,
        c: Linear::ZERO,
        elements: &mut elements[..k.sites],
        positions: &mut positions[..k.sites],
        rotations: &mut rotations[..k.operations],
        translations: &mut translations[..k.operations],
        images,
        rotations_of_targets: &mut rotations_of_targets[..k.targets],
        translations_of_targets: &mut translations_of_targets[..k.targets],
        conventional: &mut conventional[..k.rotations],
        multiplicities: &mut multiplicities[..k.candidates],
        letters: &mut letters[..k.candidates],
        texts: &mut texts[..k.candidates],
        symprec: 0.0,
    };
    standardize_read(bytes, k, &mut lists, answer)
}

// The same with room for N images.
fn standardize_within<const N: usize>(
    bytes: &[u8],
    k: JobCounts,
    answer: &mut Answer,
) -> Result<AnswerCounts, Refusal>
    requires { JobOf bytes.now k × Within most_legal k × (k.images ≤ N) × (N ≤ most_images) }
    ensures standardized { BytesPromise bytes.now (answer_cells answer.old) (answer_cells answer.new) result }
    ensures same_answer { SameAnswer answer.old answer.new }
{
    let mut images = [0u8; N];
    standardize_counted(bytes, k, &mut images[..k.images], answer)
}

// A job's standard cell with its listed sites, their labels and their letters; all zero after a refusal.
pub fn standardize_bytes(bytes: &[u8], answer: &mut Answer) -> Result<AnswerCounts, Refusal>
    ensures standardized { BytesPromise bytes.now (answer_cells answer.old) (answer_cells answer.new) result }
    ensures same_answer { SameAnswer answer.old answer.new }
{
    match legal_counts(bytes) {
        Ok(k) => {
            if k.images <= USUAL_IMAGES {
                standardize_within::<USUAL_IMAGES>(bytes, k, answer)
            } else {
                standardize_within::<MOST_IMAGES>(bytes, k, answer)
            }
        }
        Err(refusal) => {
            answer.clear();
            Err(refusal)
        }
    }
}
