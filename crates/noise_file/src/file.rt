//! A noise file that was judged and accepted.
ghost use Rattle.std.specs.Prelude.{◌≡◌, false, is_some};
ghost use Rattle.noise_file.specs.Rules.{due};

pub mod feed;
pub mod open;

/// The bytes of an accepted noise file.
#[derive(Drop)]
pub struct NoiseFile {
    bytes: Vec<u8>,
    ghost opened: { is_some (due bytes.items) ≡ false },
}
