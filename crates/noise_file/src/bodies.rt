//! The bodies of a file whose contents are judged, and the entries that they are.
ghost use Rattle.std.specs.Prelude.{◌≡◌, ◌+◌, ◌<◌, ◌≤◌, length, None};
ghost use Rattle.noise_file.specs.Contents.{entries};
ghost use Rattle.noise_file.specs.Rules.{contents_due, end_due};
ghost use Rattle.noise_file.specs.Entries.{body_in, Holds};

use crate::contents::Contents;
use crate::entry::{Body, Entry};
use crate::kind::Symbols;
use towers::tower::Tower;

/// The contents of a file that are in order, and whose bodies end where the file ends.
#[derive(Clone, Copy)]
pub(crate) struct Bodies<'a> {
    pub(crate) contents: Contents<'a>,
    ghost in_order: { contents_due contents.bytes.now ≡ None },
    ghost ended: { end_due contents.bytes.now ≡ None },
}

impl<'a> Bodies<'a> {
    /// Entry `i`, from 0.
    pub(crate) fn entry(&self, i: usize) -> Entry<'a>
        requires { i < entries self.now.contents.bytes.now }
        ensures holds { Holds self.now.contents.bytes.now i result }
        ensures end { (body_in result).at + length (body_in result).letters.now ≤ usize.MAX }
    {
        let line = self.contents.line(i);
        let symbols = Symbols::of(line.kind).unwrap();
        let tower = Tower::of(line.tower).unwrap();
        let at = self.contents.begin_of(i);
        let letters = &self.contents.bytes[at..at + usize::from(line.length)];
        Entry::of(symbols, Body { tower, at, letters })
    }
}
