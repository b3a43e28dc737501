//! The two theorems of piles, stated of any symbol extractor and of any pile.
ghost use Rattle.std.specs.Prelude.{◌≡◌, true};
ghost use Rattle.blum.specs.PilesEven.{CountsEven, OwnClassEven, PilesEven};

use extractors::interface::SymbolExtractor;

/// Any symbol extractor is even on every count class, and on the class of its pile: the Markov class with a Blum layer
/// on top, else the count class. The function holds the statement; it answers 0, which is of no use.
pub fn class_stands<E: SymbolExtractor>(extractor: &E) -> u8
    ensures counts { CountsEven (E.pile extractor.now) }
    ensures own_class { OwnClassEven (E.pile extractor.now) }
    ensures answer { result ≡ 0 }
{
    0
}

/// Every pile that keeps the even law is even on every count class and on its own class. The function holds the
/// statement; it always answers true.
pub fn piles_are_even() -> bool
    ensures both { PilesEven }
    ensures answer { result ≡ true }
{
    true
}
