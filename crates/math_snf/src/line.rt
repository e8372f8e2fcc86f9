// The number of a row, or of a column.
ghost use Rattle.std.specs.Prelude.{◌<◌};

#[derive(Clone, Copy)]
pub struct Line {
    pub at: usize,
    ghost inside: { at < 3 },
}

pub const FIRST: Line = Line { at: 0 };

pub const SECOND: Line = Line { at: 1 };

pub const THIRD: Line = Line { at: 2 };
