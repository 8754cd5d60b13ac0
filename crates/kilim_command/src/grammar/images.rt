//! What `save` and `resume` are asked.

ghost use Rattle.std.specs.Prelude.{◌≡◌, ◌≤◌, ◌&&◌, true, length, map, IfSome};
ghost use Rattle.std.specs.List.{list_all};
ghost use Rattle.std.specs.Option.{option_copied, option_map};
ghost use Rattle.std.specs.String.{string_bytes};
ghost use Rattle.kilim_command.specs.grammar.Parts.{meant, numbers_of};
ghost use Rattle.kilim_command.specs.grammar.Words.{are_files, class_files, file_in, image_option, is_save_option, resume_request, resume_with, save_behind, save_of, save_request, save_with, values_of};

use crate::grammar::asked::{
    Asked, ResumeWords, SaveWords, are_files, args_in, count_hyphened, count_plain, is_file,
};
use crate::grammar::options::{
    Values, are_resume_options, are_save_options, number_of, number_or, text_in, values_of,
};

// The name of the file with the image.
fn image_in<'a>(options: &'a [String]) -> Option<&'a str>
    ensures { option_copied result ≡ file_in (values_of image_option (map string_bytes options.now)) }
{
    match values_of("--image=", options) {
        Values::One(name) if is_file(name) => Some(name),
        _ => None,
    }
}

// Whether the options of `save` are well, and the files.
fn can_save(options: &[String], files: &[String]) -> bool
    ensures can { result ≡ (list_all is_save_option (map string_bytes options.now) && are_files (map string_bytes files.now)) }
    ensures few { result ≡ true → length files.now ≤ 1000 }
{
    are_save_options(options) && are_files(files)
}

fn save_with<'a>(
    files: &'a [String],
    main: Option<&'a str>,
    image: Option<&'a str>,
    entries: Option<u64>,
    steps: Option<u64>,
    args: Option<&'a [String]>,
) -> Option<Asked<'a>>
    ensures files { IfSome result (λ asked. class_files (meant asked) ≡ map string_bytes files.now) }
    ensures request { option_map meant result ≡ save_with (map string_bytes files.now) (option_copied main.entry) (option_copied image.entry) entries steps (option_map (λ ws. numbers_of (map string_bytes ws)) (option_copied args.entry)) }
{
    match (main, image, entries, steps, args) {
        (Some(main), Some(image), Some(entries), Some(steps), Some(args)) => {
            Some(Asked::Save(SaveWords {
                main,
                image,
                entries,
                steps,
                args,
                files,
            }))
        }
        _ => None,
    }
}

fn save_of<'a>(
    options: &'a [String],
    files: &'a [String],
    behind: &'a [String],
) -> Option<Asked<'a>>
    ensures few { IfSome result (λ asked. length (class_files (meant asked)) ≤ 1000) }
    ensures request { option_map meant result ≡ save_of (map string_bytes options.now) (map string_bytes files.now) (map string_bytes behind.now) }
{
    if !can_save(options, files) {
        return None;
    }
    let main = text_in("--main=", options);
    let image = image_in(options);
    let entries = number_of(1_000_000_000, "--entries=", options);
    let steps = number_or(1_000_000, 100_000_000, "--steps=", options);
    save_with(files, main, image, entries, steps, args_in(behind))
}

fn save_behind<'a>(options: &'a [String], others: &'a [String]) -> Option<Asked<'a>>
    ensures few { IfSome result (λ asked. length (class_files (meant asked)) ≤ 1000) }
    ensures request { option_map meant result ≡ save_behind (map string_bytes options.now) (map string_bytes others.now) }
{
    let (files, behind) = others.split_at(count_plain(others));
    save_of(options, files, behind)
}

/// What `save` is asked with these words behind it.
pub fn save_request(words: &[String]) -> Option<Asked<'_>>
    ensures few { IfSome result (λ asked. length (class_files (meant asked)) ≤ 1000) }
    ensures request { option_map meant result ≡ save_request (map string_bytes words.now) }
{
    let (options, others) = words.split_at(count_hyphened(words));
    save_behind(options, others)
}

fn resume_with<'a>(image: Option<&'a str>, workers: Option<u64>) -> Option<Asked<'a>>
    ensures few { IfSome result (λ asked. length (class_files (meant asked)) ≤ 1000) }
    ensures request { option_map meant result ≡ resume_with (option_copied image.entry) workers }
{
    match (image, workers) {
        (Some(image), Some(workers)) => Some(Asked::Resume(ResumeWords { image, workers })),
        _ => None,
    }
}

/// What `resume` is asked with these words behind it.
pub fn resume_request<'a>(words: &'a [String]) -> Option<Asked<'a>>
    ensures few { IfSome result (λ asked. length (class_files (meant asked)) ≤ 1000) }
    ensures request { option_map meant result ≡ resume_request (map string_bytes words.now) }
{
    if !are_resume_options(words) {
        return None;
    }
    resume_with(image_in(words), number_or(1, 16, "--workers=", words))
}
