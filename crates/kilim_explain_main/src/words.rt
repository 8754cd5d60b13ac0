//! The words of the command line.

ghost use Rattle.std.specs.Prelude.{◌≡◌, ◌≤◌, true, IfSome, length};

/// What the words ask for.
#[derive(Clone, Copy)]
pub struct Asked<'a> {
    /// The folder below which sources lie.
    pub below: Option<&'a str>,
    /// The main class that is looked for.
    pub main: Option<&'a str>,
    /// The names of class files, from 1 to 1,000.
    pub files: &'a [String],
}

/// The most class files.
pub const FILES: usize = 1000;

// The value of an option of that front; None where the word is another one, or has no value.
fn value_of<'a>(front: &str, word: &'a str) -> Option<&'a str> {
    match word.strip_prefix(front) {
        Some("") => None,
        found => found,
    }
}

// With one more option; None where it is none, or stands twice.
fn with_option<'a>(asked: Asked<'a>, word: &'a str) -> Option<Asked<'a>>
    ensures { IfSome result (λ next. next.files ≡ asked.entry.files) }
{
    match (value_of("--source=", word), value_of("--main=", word)) {
        (Some(folder), _) => {
            if asked.below.is_some() {
                return None;
            }
            Some(Asked {
                below: Some(folder),
                main: asked.main,
                files: asked.files,
            })
        }
        (None, Some(name)) => {
            if asked.main.is_some() {
                return None;
            }
            Some(Asked {
                below: asked.below,
                main: Some(name),
                files: asked.files,
            })
        }
        (None, None) => None,
    }
}

fn is_option(word: &str) -> bool {
    word.starts_with("-")
}

// How many words at the front begin with a minus.
fn options(words: &[String]) -> usize {
    for (i, word) in words.iter().enumerate() {
        if !is_option(word.as_str()) {
            return i;
        }
    }
    words.len()
}

// Whether these can be names of files: at least one, not too many, none empty, none like an option.
fn are_files(words: &[String]) -> bool
    ensures { result ≡ true → length words.now ≤ 1000 }
{
    if words.is_empty() || words.len() > FILES {
        return false;
    }
    for word in words {
        if word.as_str().is_empty() || is_option(word.as_str()) {
            return false;
        }
    }
    true
}

/// What the words ask for: options, each at most once, and then the names of files. None where they aren't such words.
pub fn request(words: &[String]) -> Option<Asked<'_>>
    ensures { IfSome result (λ asked. length asked.files.now ≤ 1000) }
{
    let count = options(words);
    if count > words.len() {
        return None;
    }
    let (before, files) = words.split_at(count);
    if !are_files(files) {
        return None;
    }
    let mut asked = Asked {
        below: None,
        main: None,
        files,
    };
    for word in before {
        let Some(next) = with_option(asked, word.as_str()) else {
            return None;
        };
        asked = next;
    }
    Some(asked)
}
