// The report program: a job's bytes on standard input, its report on standard output. Only the reading and the writing
// are trusted; where one of them fails, `main` ends with its error.
#![tactic(auto)]

ghost use Rattle.std.specs.Prelude.{◌≡◌, length, take, IfOk};
ghost use Rattle.definitions.specs.Refusal.{outcome};
ghost use Rattle.definitions.specs.WholeCalls.{ReportPromise, ReportWritten};
ghost use Rattle.symmetrize_standardize.specs.Given.{answer_cells};
ghost use Rattle.report.specs.Input.{input_bytes};
ghost use Rattle.report.specs.Printed.{shown};
ghost use Rattle.std.specs.Counts.{IsPrefixLen};

use definitions::limits::{MOST_BYTES, MOST_LISTED, MOST_SITES};
use definitions::{AnswerCounts, Refusal};
use job_standardize::standardize_bytes;
use report_text::lines::Columns;
use report_text::{REPORT_BYTES, put_report};
use std::io;
use std::io::{Read, Write};
use symmetrize_standardize::Answer;

// one byte more than a job has at the most
const INPUT_BYTES: usize = MOST_BYTES + 1;

// Of a longer input the first bytes are read, and its report is theirs (specs/Input.antt).
fn input_buffer() -> [u8; INPUT_BYTES]
    ensures { input_bytes ≡ length result }
{
    [0; INPUT_BYTES]
}

// The report of what is told of an answer, which is read here alone.
fn put_answer(told: Result<AnswerCounts, Refusal>, answer: &Answer, text: &mut [u8]) -> usize
    ensures { ReportWritten (outcome (λ c. c) told) (shown (answer_cells answer.now)) text.old text.new result }
{
    let columns = Columns {
        mapping: answer.mapping,
        labels: answer.labels,
        multiplicities: answer.multiplicities,
        letters: answer.letters,
    };
    put_report(told.map_err(usize::from), &columns, text)
}

// The report of a job's bytes, and how many bytes of the text it is.
fn report_of(bytes: &[u8], text: &mut [u8; REPORT_BYTES]) -> usize
    ensures { ReportPromise bytes.now (take result text.new) × IsPrefixLen result text.new }
{
    let mut positions = [[0.0; 3]; MOST_LISTED];
    let mut points = [[0; 3]; MOST_LISTED];
    let mut mapping = [0u16; MOST_LISTED];
    let mut elements = [0i32; MOST_LISTED];
    let mut labels = [0u16; MOST_LISTED];
    let mut multiplicities = [0u16; MOST_LISTED];
    let mut letters = [0u8; MOST_LISTED];
    let mut primitive = [[0.0; 3]; MOST_SITES];
    let mut answer = Answer {
        positions: &mut positions,
        points: &mut points,
        mapping: &mut mapping,
        elements: &mut elements,
        labels: &mut labels,
        multiplicities: &mut multiplicities,
        letters: &mut letters,
        primitive: &mut primitive,
        primitive_cell_basis: &mut [[0.0; 3]; 3],
        listed_cell_basis: &mut [[0.0; 3]; 3],
        factors: &mut [0; 3],
    };
    let told = standardize_bytes(bytes, &mut answer);
    put_answer(told, &answer, text)
}

// Reads until the buffer is full or the input has ended, and tells how many bytes stand in the buffer.
fn read_full<R: Read>(reader: &mut R, buf: &mut [u8]) -> io::Result<usize>
    ensures { IfOk result (λ n. IsPrefixLen n buf.new) }
{
    let mut done = 0;
    for _ in 0..u64::MAX {
        if done >= buf.len() {
            break;
        }
        let n = reader.read(&mut buf[done..])?;
        if n == 0 {
            break;
        }
        done += n;
    }
    Ok(done)
}

fn main(rt: HostRuntime) -> io::Result<()> {
    let mut input = input_buffer();
    let n = read_full(&mut rt.reader(), &mut input)?;
    let mut text = [0u8; REPORT_BYTES];
    let k = report_of(&input[..n], &mut text);
    io::writer(&rt).write_all(&text[..k])
}
