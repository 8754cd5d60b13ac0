//! How much of a file is read.

ghost use Rattle.std.specs.Prelude.{◌≡◌};
ghost use Rattle.kilim_outside.specs.Files.{file_limit};

/// The most bytes of a file that a folder reads: 16,777,217, one more than a class file may have. So a
/// file that is too long is known to be.
#[tactic(auto, unfolding(crate::specs::Files::file_limit))]
pub fn file_limit() -> usize
    ensures { result ≡ file_limit }
{
    16_777_217
}
