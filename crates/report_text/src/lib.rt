// The report's text into lent bytes, as much of it as there is room for.
#![tactic(auto)]

mod bytes;
pub mod lines;

ghost use Rattle.std.specs.Prelude.{◌≡◌};
ghost use Rattle.definitions.specs.Refusal.{outcome_by_number};
ghost use Rattle.definitions.specs.WholeCalls.{ReportWritten};
ghost use Rattle.report_text.specs.Columns.{shown_of};
ghost use Rattle.report_text.specs.Putting.{Puts};
ghost use Rattle.report_text.specs.Text.{header_text, refusal_text};

use crate::bytes::Writer;
use crate::lines::{Columns, put_lines};
use definitions::AnswerCounts;
use definitions::limits::MOST_LISTED;

// Room for every report, as specs/Text.antt has it; proofs/Room.antt shows that it is.
pub const REPORT_BYTES: usize = 55 + MOST_LISTED * 86;

fn put_refusal(writer: &mut Writer, number: usize)
    ensures same_bytes { writer.new.out.ghost_name ≡ writer.old.out.ghost_name }
    ensures puts { Puts (refusal_text number)
        writer.old.at writer.old.out.now writer.new.out.now writer.new.at }
{
    writer.bytes(b"refused ");
    writer.decimal(number);
    writer.byte(b'\n');
}

fn put_header(writer: &mut Writer, sites: usize, orbits: usize)
    ensures same_bytes { writer.new.out.ghost_name ≡ writer.old.out.ghost_name }
    ensures puts { Puts (header_text sites orbits) writer.old.at writer.old.out.now writer.new.out.now writer.new.at }
{
    writer.bytes(b"sites ");
    writer.decimal(sites);
    writer.bytes(b" orbits ");
    writer.decimal(orbits);
    writer.byte(b'\n');
}

// The count of the bytes that are the report's; behind them all is as it was. A refusal is told by its number, whatever
// number it is.
pub fn put_report(told: Result<AnswerCounts, usize>, columns: &Columns, out: &mut [u8]) -> usize
    ensures { ReportWritten (outcome_by_number told) (shown_of columns.now) out.old out.new result }
{
    let mut writer = Writer { out, at: 0 };
    match told {
        Err(number) => {
            put_refusal(&mut writer, number);
            writer.at
        }
        Ok(AnswerCounts { sites, orbits }) => {
            put_header(&mut writer, sites, orbits);
            put_lines(&mut writer, columns, sites);
            writer.at
        }
    }
}
