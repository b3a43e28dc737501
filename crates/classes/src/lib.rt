//! The classes of a recording and the even law on them: mathematics, proved once for every extractor.
#![tactic(auto)]

ghost use Rattle.std.specs.Prelude.{◌≡◌, ℕ};
ghost use Rattle.classes.specs.Classes.{CountLike, Listing, MarkovLike, count_class, markov_class};
ghost use Rattle.classes.specs.Exchange.{ExchangeIsEven};

/// Every class is a finite list: its members are exactly the recordings alike, each once, the recording itself among
/// them. So the even law is never empty. The function holds the statement; it answers nothing of use.
pub fn classes_listed() -> u8
    ensures count_classes { (m : ℕ) → Listing m (CountLike m) (count_class m) }
    ensures markov_classes { (m : ℕ) → Listing m (MarkovLike m) (markov_class m) }
{
    0
}

/// The even law and partner exchange give each other, on count classes and on Markov classes. The function holds the
/// statement; it answers nothing of use.
pub fn exchange_is_even() -> u8
    ensures { ExchangeIsEven }
{
    0
}
