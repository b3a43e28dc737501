//! An opened entry: its symbols and its part of the file, which it borrows.
ghost use Rattle.std.specs.Prelude.{◌≡◌, Some, Ok, Err};
ghost use Rattle.noise_file.specs.Letters.{symbols_of, kind_letter, code_in};
ghost use Rattle.noise_file.specs.Reading.{stray, ReadAs, Misread};
ghost use Rattle.noise_file.specs.Entries.{symbols_in, body_in};
ghost use Rattle.noise_file.specs.Feeds.{size_in};

use crate::fault::FileFault;
use crate::kind::{self, Coin, Die, Kind, Label, Symbols};
use std::alloc::Global;
use towers::tower::Tower;

/// An entry's part of the file.
#[derive(Clone, Copy)]
pub struct Body<'a> {
    /// The tower that cleans it.
    pub tower: Tower,
    /// The byte offset of its first letter in the file.
    pub at: usize,
    /// Its letters.
    pub letters: &'a [u8],
}

// An enum whose cases borrow the body is a rule of the project.
/// An entry of a file, by its kind.
#[derive(Clone, Copy)]
pub enum Entry<'a> {
    /// Throws of a coin.
    Coins(Body<'a>),
    /// Faces of a die.
    Faces(Body<'a>),
    /// Labels.
    Labels(Body<'a>),
}

impl<'a> Entry<'a> {
    /// The entry of these symbols with this body.
    pub(crate) fn of(symbols: Symbols, body: Body<'a>) -> Entry<'a>
        ensures kind { symbols_in result ≡ symbols }
        ensures body { body_in result ≡ body.entry }
    {
        match symbols {
            Symbols::Coins => Entry::Coins(body),
            Symbols::Faces => Entry::Faces(body),
            Symbols::Labels => Entry::Labels(body),
        }
    }

    /// The kind letter of the entry, by which a file names its kind.
    // A `From<Entry>` for `char` beside this public name would be a second way to the same letter.
    pub fn kind_letter(&self) -> char
        ensures value { result ≡ kind_letter (symbols_in self.now) }
        ensures found { symbols_of result ≡ Some (symbols_in self.now) }
    {
        match self {
            Entry::Coins(_) => 'C',
            Entry::Faces(_) => 'D',
            Entry::Labels(_) => 'L',
        }
    }

    /// The entry's part of the file.
    pub fn body(&self) -> Body<'a>
        ensures { result ≡ body_in self.now }
    {
        match *self {
            Entry::Coins(body) | Entry::Faces(body) | Entry::Labels(body) => body,
        }
    }

    /// The size of the entry's kind.
    pub(crate) fn size(&self) -> u8
        ensures { result ≡ size_in (symbols_in self.now) }
    {
        match self {
            Entry::Coins(_) => Coin::SIZE,
            Entry::Faces(_) => Die::SIZE,
            Entry::Labels(_) => Label::SIZE,
        }
    }

    /// The codes of the entry's letters.
    // Each question has a match of its own: a kind is a type, and no closure is generic over a type.
    pub(crate) fn codes(&self, heap: Global) -> Result<Vec<u8>, FileFault>
        ensures { elim result [ Ok v ↦ ReadAs (size_in (symbols_in self.now)) (code_in (symbols_in self.now)) (body_in self.now).letters.now v.items | Err e ↦ Misread (code_in (symbols_in self.now)) (body_in self.now).letters.now e ] }
    {
        match self {
            Entry::Coins(body) => kind::read_body::<Coin>(heap, body.letters),
            Entry::Faces(body) => kind::read_body::<Die>(heap, body.letters),
            Entry::Labels(body) => kind::read_body::<Label>(heap, body.letters),
        }
    }

    /// The index of the first letter that is not of the entry's kind.
    pub(crate) fn first_stray(&self) -> Option<usize>
        ensures { result ≡ stray (code_in (symbols_in self.now)) (body_in self.now).letters.now }
    {
        match self {
            Entry::Coins(body) => kind::first_stray::<Coin>(body.letters),
            Entry::Faces(body) => kind::first_stray::<Die>(body.letters),
            Entry::Labels(body) => kind::first_stray::<Label>(body.letters),
        }
    }
}
