// One line a listed site: site, primitive site, label, multiplicity, letter.
ghost use Rattle.std.specs.Prelude.{◌≡◌, get_or};
ghost use Rattle.report_text.specs.Columns.{shown_of};
ghost use Rattle.report_text.specs.Putting.{Puts};
ghost use Rattle.report_text.specs.Text.{field_text, letter_text, line_text, lines_text};

use crate::bytes::Writer;

// What is shown of the listed sites, a list for each column; a list that ends early goes on with 0.
#[derive(Clone, Copy)]
pub struct Columns<'a> {
    pub mapping: &'a [u16],
    pub labels: &'a [u16],
    pub multiplicities: &'a [u16],
    pub letters: &'a [u8],
}

// what stands behind a list's end too
fn entry<T: Copy + Drop>(list: &[T], j: usize, behind: T) -> T
    ensures { result ≡ get_or list.now j behind }
{
    list.get(j).copied().unwrap_or(behind)
}

fn put_field(writer: &mut Writer, n: usize)
    ensures same_bytes { writer.new.out.ghost_name ≡ writer.old.out.ghost_name }
    ensures puts { Puts (field_text n) writer.old.at writer.old.out.now writer.new.out.now writer.new.at }
{
    writer.byte(b' ');
    writer.decimal(n);
}

// the letter is its byte as given
fn put_letter(writer: &mut Writer, letter: u8)
    ensures same_bytes { writer.new.out.ghost_name ≡ writer.old.out.ghost_name }
    ensures puts { Puts (letter_text letter) writer.old.at writer.old.out.now writer.new.out.now writer.new.at }
{
    writer.byte(b' ');
    writer.byte(letter);
    writer.byte(b'\n');
}

fn put_line(writer: &mut Writer, columns: &Columns, j: usize)
    ensures same_bytes { writer.new.out.ghost_name ≡ writer.old.out.ghost_name }
    ensures puts { Puts (line_text (shown_of columns.now) j)
        writer.old.at writer.old.out.now writer.new.out.now writer.new.at }
{
    writer.decimal(j);
    put_field(writer, usize::from(entry(columns.mapping, j, 0)));
    put_field(writer, usize::from(entry(columns.labels, j, 0)));
    put_field(writer, usize::from(entry(columns.multiplicities, j, 0)));
    put_letter(writer, entry(columns.letters, j, 0));
}

pub(crate) fn put_lines(writer: &mut Writer, columns: &Columns, sites: usize)
    ensures same_bytes { writer.new.out.ghost_name ≡ writer.old.out.ghost_name }
    ensures puts { Puts (lines_text (shown_of columns.now) sites)
        writer.old.at writer.old.out.now writer.new.out.now writer.new.at }
{
    for j in 0..sites {
        put_line(writer, columns, j);
    }
}
