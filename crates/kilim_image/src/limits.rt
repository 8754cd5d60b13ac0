//! Which images are right.

ghost use Rattle.std.specs.Prelude.{◌≡◌, ◌==◌, not};
ghost use Rattle.std.specs.Str.{is_utf8};
ghost use Rattle.kilim_class_grammar.specs.Reader.{is_empty};
ghost use Rattle.kilim_image.specs.Text.{image_limit, is_right};

use crate::image::Run;

/// The most bytes of an image.
#[tactic(auto, unfolding(crate::specs::Text::image_limit))]
pub fn image_limit() -> usize
    ensures { result ≡ image_limit }
{
    16_777_216
}

fn is_utf8(bytes: &[u8]) -> bool
    ensures { result ≡ is_utf8 bytes.now }
{
    match std::str::from_utf8(bytes) {
        Ok(_) => true,
        Err(_) => false,
    }
}

fn is_some(bytes: &[u8]) -> bool
    ensures { result ≡ not (is_empty bytes.now) }
{
    !bytes.is_empty()
}

/// Whether the words of a command may ask for this run.
#[tactic(auto, unfolding(crate::specs::Text::is_right))]
pub fn is_right(run: &Run) -> bool
    ensures { result ≡ is_right run.now }
{
    let steps = run.steps;
    let args = run.args.len();
    let files = run.files.len();
    let main = run.main.as_slice();
    (1 <= steps && steps <= 100_000_000)
        && (args <= 100 && ((1 <= files && files <= 1000) && (is_some(main) && is_utf8(main))))
}
