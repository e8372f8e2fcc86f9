// Where records are read from and lines are written to.
use crate::records::{Given, Shown};
use std::alloc::Global;
use std::io::{self, Read, Write};

// The most entries of a list whose count is a number, and the most cells that are lent: what is counted beyond is left
// out, and the bytes behind are the next record's.
const MOST: usize = 1100;

// The most entries of a list whose count is a size: some more than a job's bytes may be.
const LONG: usize = 65600;

#[derive(Drop)]
pub(crate) struct Streams<R, W> {
    alloc: Global,
    input: R,
    output: W,
}

impl<R: Read, W: Write> Streams<R, W> {
    pub(crate) fn new(alloc: Global, input: R, output: W) -> Self {
        Streams {
            alloc,
            input,
            output,
        }
    }

    // So many bytes; 0 past the end of the input.
    pub(crate) fn read_bytes<const N: usize>(&mut self) -> io::Result<[u8; N]> {
        let mut bytes = [0u8; N];
        for (cell, byte) in bytes.iter_mut().zip(self.input.by_ref().bytes()) {
            *cell = byte?;
        }
        Ok(bytes)
    }

    pub(crate) fn read<T: Given>(&mut self) -> io::Result<T> {
        T::read(self)
    }

    // a number, two bytes
    pub(crate) fn read_number(&mut self) -> io::Result<usize> {
        Ok(usize::from(self.read::<u16>()?))
    }

    // a size of any magnitude
    pub(crate) fn read_size(&mut self) -> io::Result<usize> {
        Ok(self.read::<u64>()? as usize)
    }

    fn read_entries<T: Given>(&mut self, n: usize) -> io::Result<Vec<T>> {
        let mut entries = Vec::new(self.alloc);
        for _ in 0..n {
            entries.push(self.read()?)?;
        }
        Ok(entries)
    }

    // the count, then the entries
    pub(crate) fn read_list<T: Given>(&mut self) -> io::Result<Vec<T>> {
        let n = self.read_number()?;
        self.read_entries(n.min(MOST))
    }

    // its count is a size
    pub(crate) fn read_long(&mut self) -> io::Result<Vec<u8>> {
        let n = self.read_size()?;
        self.read_entries(n.min(LONG))
    }

    fn lent<T: Shown>(&mut self, n: usize) -> io::Result<Vec<T>> {
        Ok(vec![in self.alloc; T::SEVEN; n]?)
    }

    // Lent cells, no one of them zero: the record has their number.
    pub(crate) fn lend<T: Shown>(&mut self) -> io::Result<Vec<T>> {
        let n = self.read_number()?;
        self.lent(n.min(MOST))
    }

    // Lent bytes of a long list, no one of them zero: any number.
    pub(crate) fn lend_long(&mut self) -> io::Result<Vec<u8>> {
        let n = self.read_number()?;
        self.lent(n)
    }

    pub(crate) fn print(&mut self, text: &str) -> io::Result<()> {
        self.output.write_all(text.as_bytes())
    }

    // as it is, and not as a number
    pub(crate) fn print_char(&mut self, byte: u8) -> io::Result<()> {
        self.output.write_all(&[byte])
    }

    // each number with a space in front
    pub(crate) fn show<T: Shown>(&mut self, x: T) -> io::Result<()> {
        x.show(&mut self.output)
    }

    pub(crate) fn show_all<T: Shown>(&mut self, list: &[T]) -> io::Result<()> {
        for x in list {
            x.show(&mut self.output)?;
        }
        Ok(())
    }

    // with no leading zeros
    pub(crate) fn show_pattern(&mut self, bits: u64) -> io::Result<()> {
        write!(self.output, " {bits:x}")
    }

    // one word, two hexadecimal digits a byte
    pub(crate) fn show_digits(&mut self, bytes: &[u8]) -> io::Result<()> {
        self.print(" ")?;
        for byte in bytes {
            write!(self.output, "{byte:02x}")?;
        }
        Ok(())
    }

    pub(crate) fn flush(&mut self) -> io::Result<()> {
        self.output.flush()
    }
}
