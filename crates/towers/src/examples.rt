//! The worked examples of the rules, as a statement.
ghost use Rattle.std.specs.Prelude.{◌≡◌};
ghost use Rattle.towers.specs.Examples.{Examples};

/// The rules give what the worked examples say. Answers the number of examples.
pub fn worked_examples() -> u8
    ensures shown { Examples }
    ensures count { result ≡ 16 }
{
    16
}
