//! Lines on images, each with its line feed.

ghost use Rattle.std.specs.Prelude.{◌≡◌, ◌≢◌, codes, IfOk};
ghost use Rattle.std.specs.Fmt.{decimal};
ghost use Rattle.kilim_image.specs.declared.fault.ImageFault.TheVariants as fault;
ghost use Rattle.kilim_image_command.specs.Lines.{fault_line, image_line, number_line, replay_line, size_line};

use kilim_image::ImageFault;
use kilim_units::NoMemory;
use std::alloc::Global;

// What is wrong with an image, in a word.
#[tactic(auto, unfolding(crate::specs::Lines::image_line))]
fn image_line(alloc: Global, word: &str) -> Result<Vec<u8>, NoMemory>
    ensures { IfOk result (λ text. text.items ≡ image_line word.now) }
{
    match format!(in alloc; "image {word}\n") {
        Ok(text) => Ok(text.into_bytes()),
        Err(_) => Err(NoMemory),
    }
}

// And with a number.
#[tactic(auto, unfolding(crate::specs::Lines::number_line))]
fn number_line(alloc: Global, word: &str, number: usize) -> Result<Vec<u8>, NoMemory>
    ensures { IfOk result (λ text. text.items ≡ number_line word.now number) }
{
    match format!(in alloc; "image {word} {number}\n") {
        Ok(text) => Ok(text.into_bytes()),
        Err(_) => Err(NoMemory),
    }
}

/// The image would have so many bytes, which are too many.
#[tactic(auto, unfolding(crate::specs::Lines::size_line))]
pub fn size_line(alloc: Global, size: usize) -> Result<Vec<u8>, NoMemory>
    ensures { IfOk result (λ text. text.items ≡ size_line size) }
{
    number_line(alloc, "too-large", size)
}

/// No state follows with the journal's line of that number.
#[tactic(auto, unfolding(crate::specs::Lines::replay_line))]
pub fn replay_line(alloc: Global, line: usize) -> Result<Vec<u8>, NoMemory>
    ensures { IfOk result (λ text. text.items ≡ replay_line line) }
{
    number_line(alloc, "replay", line)
}

/// Why bytes are no image; of want of memory there is no line.
#[tactic(auto, unfolding(crate::specs::Lines::fault_line))]
pub fn fault_line(alloc: Global, found: ImageFault) -> Result<Vec<u8>, NoMemory>
    ensures { IfOk result (λ text. (text.items ≡ fault_line found) × (found ≢ fault.Memory)) }
{
    match found {
        ImageFault::TooLarge => image_line(alloc, "too-large"),
        ImageFault::Magic => image_line(alloc, "magic"),
        ImageFault::Version(version) => number_line(alloc, "version", version as usize),
        ImageFault::Cut => image_line(alloc, "cut"),
        ImageFault::Extra(at) => number_line(alloc, "extra", at),
        ImageFault::Number => image_line(alloc, "number"),
        ImageFault::Journal(line) => number_line(alloc, "journal", line),
        ImageFault::Memory => Err(NoMemory),
    }
}
