//! The towers that an entry may name, each with its letter.
ghost use Rattle.std.specs.Prelude.{◌≡◌, false, Some};
ghost use Rattle.towers.specs.Towers.{base_letter, base_of, tower_letter, tower_of};

/// What a tower stands on.
#[derive(Clone, Copy, PartialEq, Eq, Debug)]
pub enum Base {
    /// v: pairs.
    Pairs,
    /// e: symbol ranking with blocks of 20.
    Ranking,
    /// p: split over Peres depth 12 over none.
    Peres,
    /// q: split over Peres depth 4 over coin ranking with blocks of 60.
    PeresRanking,
    /// r: split over coin ranking with blocks of 60.
    CoinRanking,
}

/// The extractor, with its layers, that an entry is cleaned by.
#[derive(Clone, Copy, PartialEq, Eq, Debug)]
pub struct Tower {
    pub base: Base,
    /// Whether the Blum layer is on top.
    // A bool is plainest: base and top are chosen apart, and each of the ten pairs is a tower.
    pub laned: bool,
}

impl Base {
    /// The base of a small letter.
    fn of(letter: char) -> Option<Base>
        ensures { result ≡ base_of letter }
    {
        match letter {
            'v' => Some(Base::Pairs),
            'e' => Some(Base::Ranking),
            'p' => Some(Base::Peres),
            'q' => Some(Base::PeresRanking),
            'r' => Some(Base::CoinRanking),
            _ => None,
        }
    }

    /// The small letter of the base.
    fn letter(self) -> char
        ensures { result ≡ base_letter self false }
    {
        match self {
            Base::Pairs => 'v',
            Base::Ranking => 'e',
            Base::Peres => 'p',
            Base::PeresRanking => 'q',
            Base::CoinRanking => 'r',
        }
    }
}

impl Tower {
    /// The tower of a tower letter: a capital puts the Blum layer on top.
    // No `TryFrom<char>` beside it: that would be a second way to the same tower.
    pub fn of(letter: char) -> Option<Tower>
        ensures { result ≡ tower_of letter }
    {
        let base = Base::of(letter.to_ascii_lowercase())?;
        Some(Tower {
            base,
            laned: letter.is_ascii_uppercase(),
        })
    }

    /// The letter of the tower, by which `of` finds it again.
    // No `From<Tower>` for `char` beside it: that would be a second way to the same letter.
    pub fn letter(self) -> char
        ensures value { result ≡ tower_letter self }
        ensures found { tower_of result ≡ Some self }
    {
        let small = self.base.letter();
        if self.laned {
            small.to_ascii_uppercase()
        } else {
            small
        }
    }
}
