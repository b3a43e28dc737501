//! The contents of a file taken apart: the four bytes of each entry, and where its body begins.
ghost use Rattle.std.specs.Prelude.{◌≡◌, ◌+◌, ◌<◌, ◌≤◌, length, Ok, Err, Some};
ghost use Rattle.noise_file.specs.Contents.{entries, key_length, line_at, kind_byte, tower_byte, length_of, body_at};
ghost use Rattle.noise_file.specs.Rules.{contents_due};

use crate::fault::FileFault;

/// Where the four bytes of entry `i` stand, or for `i` the number of entries, where the contents end.
pub(crate) fn line_at(i: usize) -> usize
    requires { line_at i ≤ usize.MAX }
    ensures { result ≡ line_at i }
{
    2 + 4 * i
}

/// What the contents say of one entry.
#[derive(Clone, Copy)]
pub(crate) struct Line {
    pub(crate) kind: char,
    pub(crate) tower: char,
    pub(crate) length: u16,
}

/// The bytes of a file that holds its contents whole: the two bytes of its head and four bytes for each entry.
#[derive(Clone, Copy)]
pub(crate) struct Contents<'a> {
    pub(crate) bytes: &'a [u8],
    ghost whole: { line_at (entries bytes.now) ≤ length bytes.now },
}

impl<'a> Contents<'a> {
    /// The contents of a file that has a head; refused where the file ends inside them.
    pub(crate) fn of(bytes: &'a [u8]) -> Result<Contents<'a>, FileFault>
        requires { 2 ≤ length bytes.now }
        ensures { elim result [ Ok c ↦ c.bytes.now ≡ bytes.now | Err e ↦ contents_due bytes.now ≡ Some e ] }
    {
        if bytes.len() < line_at(usize::from(bytes[0])) {
            return Err(FileFault::Cut(bytes.len()));
        }
        Ok(Contents { bytes })
    }

    /// The number of entries.
    pub(crate) fn entries(&self) -> usize
        ensures value { result ≡ entries self.now.bytes.now }
        ensures bound { result ≤ 255 }
    {
        usize::from(self.bytes[0])
    }

    /// The length of a key in bytes.
    pub(crate) fn key_length(&self) -> usize
        ensures { result ≡ key_length self.now.bytes.now }
    {
        usize::from(self.bytes[1])
    }

    /// The four bytes of entry `i`, from 0.
    pub(crate) fn line(&self, i: usize) -> Line
        requires { i < entries self.now.bytes.now }
        ensures kind { result.kind ≡ kind_byte self.now.bytes.now i }
        ensures tower { result.tower ≡ tower_byte self.now.bytes.now i }
        ensures length { result.length ≡ length_of self.now.bytes.now i }
    {
        let [kind, tower, high, low, ..] = &self.bytes[line_at(i)..] else {
            unreachable!()
        };
        Line {
            kind: char::from(*kind),
            tower: char::from(*tower),
            length: u16::from_be_bytes([*high, *low]),
        }
    }

    /// Where the body of entry `i` begins, or for `i` the number of entries, where the last body ends.
    pub(crate) fn begin_of(&self, i: usize) -> usize
        requires { i ≤ entries self.now.bytes.now }
        ensures { result ≡ body_at self.now.bytes.now i }
    {
        // The loop is plainer than a sum over a range: each step asks that its line is there.
        let mut at = line_at(self.entries());
        for k in 0..i {
            at += usize::from(self.line(k).length);
        }
        at
    }
}
