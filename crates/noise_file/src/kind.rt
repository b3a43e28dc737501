//! The kinds of symbols: the size and the letters of each, and reading letters as codes for any kind.
ghost use Rattle.std.specs.Prelude.{◌≡◌, ℕ, ◌<◌, ◌≤◌, Some, Ok, Err, Option};
ghost use Rattle.noise_file.specs.Letters.{coin_code, face_code, label_code, symbols_of};
ghost use Rattle.noise_file.specs.Reading.{stray, ReadAs, Misread};
ghost use Rattle.std.proofs.Common.{rules};

use crate::fault::FileFault;
use std::alloc::Global;

/// What an entry's letters stand for.
#[derive(Clone, Copy, PartialEq, Eq, Debug)]
pub enum Symbols {
    /// C: throws of a coin.
    Coins,
    /// D: faces of a die.
    Faces,
    /// L: labels.
    Labels,
}

impl Symbols {
    /// The symbols of a kind letter.
    // A TryFrom<char> beside this public name would be a second way to the same answer.
    pub fn of(letter: char) -> Option<Symbols>
        ensures { result ≡ symbols_of letter }
    {
        match letter {
            'C' => Some(Symbols::Coins),
            'D' => Some(Symbols::Faces),
            'L' => Some(Symbols::Labels),
            _ => None,
        }
    }
}

/// A kind of symbols: its size, and the code of each of its letters.
pub trait Kind {
    /// How many codes there are; they are the numbers below it.
    const SIZE: u8;

    ghost SIZE: { ℕ };

    ghost coded: { ℕ → Option ℕ };

    /// The size, for code that is written for any kind.
    fn alphabet() -> u8
        ensures { result ≡ SIZE }
    {
        Self::SIZE
    }

    /// The code of a letter of the kind.
    fn code(letter: char) -> Option<u8>
        ensures { result ≡ coded letter };

    ghost bounds: { (2 ≤ SIZE) × (SIZE ≤ 16) };

    ghost below: { (l c : ℕ) → coded l ≡ Some c → c < SIZE };
}

/// Throws of a coin: H and T.
pub struct Coin;

impl Kind for Coin {
    const SIZE: u8 = 2;

    ghost SIZE = { 2 };

    ghost coded = { coin_code };

    ghost bounds = { Prim.search rules };

    ghost below = { Prim.search rules };

    fn code(letter: char) -> Option<u8> {
        match letter {
            'H' => Some(0),
            'T' => Some(1),
            _ => None,
        }
    }
}

/// Faces of a die: the digits 1 to 6.
pub struct Die;

impl Kind for Die {
    const SIZE: u8 = 6;

    ghost SIZE = { 6 };

    ghost coded = { face_code };

    ghost bounds = { Prim.search rules };

    ghost below = { Prim.search rules };

    fn code(letter: char) -> Option<u8> {
        match letter {
            '1' => Some(0),
            '2' => Some(1),
            '3' => Some(2),
            '4' => Some(3),
            '5' => Some(4),
            '6' => Some(5),
            _ => None,
        }
    }
}

/// Labels: the letters a to p.
pub struct Label;

impl Kind for Label {
    const SIZE: u8 = 16;

    ghost SIZE = { 16 };

    ghost coded = { label_code };

    ghost bounds = { Prim.search rules };

    ghost below = { Prim.search rules };

    fn code(letter: char) -> Option<u8> {
        match letter {
            'a' => Some(0),
            'b' => Some(1),
            'c' => Some(2),
            'd' => Some(3),
            'e' => Some(4),
            'f' => Some(5),
            'g' => Some(6),
            'h' => Some(7),
            'i' => Some(8),
            'j' => Some(9),
            'k' => Some(10),
            'l' => Some(11),
            'm' => Some(12),
            'n' => Some(13),
            'o' => Some(14),
            'p' => Some(15),
            _ => None,
        }
    }
}

/// Reads letters of any kind: their codes in order, or the index of the first letter that is not of the kind.
pub fn read_body<K: Kind>(heap: Global, letters: &[u8]) -> Result<Vec<u8>, FileFault>
    ensures { elim result [ Ok v ↦ ReadAs K.Kind.SIZE K.Kind.coded letters.now v.items | Err e ↦ Misread K.Kind.coded letters.now e ] }
{
    let mut codes = Vec::new(heap);
    for (i, letter) in letters.iter().enumerate() {
        let code = K::code(char::from(*letter)).ok_or(FileFault::Letter(i))?;
        codes.push(code)?;
    }
    Ok(codes)
}

/// The index of the first letter that is not of the kind.
pub fn first_stray<K: Kind>(letters: &[u8]) -> Option<usize>
    ensures { result ≡ stray K.Kind.coded letters.now }
{
    letters
        .iter()
        .position(|letter| K::code(char::from(*letter)).is_none())
}
