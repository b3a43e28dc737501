//! The lines that the program prints.
ghost use Rattle.std.specs.Prelude.{Some};
ghost use Rattle.clean.specs.Lines.{entry_line, key_line, last_line, refusal_line};

use std::fmt;

/// The line of an entry.
#[derive(Clone, Copy)]
pub(crate) struct EntryLine {
    pub number: usize,
    pub kind: char,
    pub tower: char,
    /// How many symbols were recorded.
    pub symbols: usize,
    /// How many bits they gave.
    pub gain: u32,
    pub lean: i32,
}

impl fmt::Display for EntryLine {
    ghost output = { λ l. Some (entry_line l.number l.kind l.tower l.symbols l.gain l.lean) };

    fn fmt<W: fmt::Write>(&self, f: &mut fmt::Formatter<W>) -> fmt::Result {
        let EntryLine {
            number,
            kind,
            tower,
            symbols,
            gain,
            lean,
        } = *self;
        writeln!(f, "{number} {kind} {tower} {symbols} {gain} {lean}")
    }
}

/// The line of a key: two hexadecimal digits a byte.
#[derive(Clone, Copy)]
pub(crate) struct KeyLine<'a>(pub &'a [u8]);

impl<'a> fmt::Display for KeyLine<'a> {
    ghost output = { λ l. Some (key_line l.0.now) };

    fn fmt<W: fmt::Write>(&self, f: &mut fmt::Formatter<W>) -> fmt::Result {
        write!(f, "key ")?;
        for &byte in self.0 {
            write!(f, "{byte:02x}")?;
        }
        writeln!(f)
    }
}

/// The last line: the bits poured, loaded and held.
#[derive(Clone, Copy)]
pub(crate) struct LastLine {
    pub poured: u32,
    pub loaded: u32,
    pub held: usize,
}

impl fmt::Display for LastLine {
    ghost output = { λ l. Some (last_line l.poured l.loaded l.held) };

    fn fmt<W: fmt::Write>(&self, f: &mut fmt::Formatter<W>) -> fmt::Result {
        let LastLine {
            poured,
            loaded,
            held,
        } = *self;
        writeln!(f, "poured {poured} loaded {loaded} held {held}")
    }
}

/// The line of a refused file.
#[derive(Clone, Copy)]
pub(crate) struct RefusalLine {
    pub number: u8,
    pub place: usize,
}

impl fmt::Display for RefusalLine {
    ghost output = { λ l. Some (refusal_line l.number l.place) };

    fn fmt<W: fmt::Write>(&self, f: &mut fmt::Formatter<W>) -> fmt::Result {
        let RefusalLine { number, place } = *self;
        writeln!(f, "refused {number} file {place}")
    }
}
