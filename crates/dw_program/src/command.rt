//! The commands that read their input.

ghost use Rattle.std.specs.Prelude.{◌≡◌, map, string_bytes};
ghost use Rattle.dw_program.specs.Commands.{reading_named, reading_of};

/// A command that reads its input.
#[derive(Clone, Copy, Debug, PartialEq, Eq)]
pub enum Reading {
    /// A script is built and written.
    Build,
    /// The sections of a listing are converted and written.
    Convert,
    /// The sets of a script are built, written and linked.
    Link,
}

impl Reading {
    /// The command that the words are, if it is one that reads.
    pub fn of(words: &Vec<String>) -> Option<Reading>
        ensures { result ≡ reading_of (map string_bytes words.now.items) }
    {
        match words.as_slice() {
            [word] => Reading::named(word.as_str()),
            _ => None,
        }
    }

    // The command of a word.
    fn named(word: &str) -> Option<Reading>
        ensures { result ≡ reading_named word.now }
    {
        if word == "build" {
            Some(Reading::Build)
        } else if word == "convert" {
            Some(Reading::Convert)
        } else if word == "link" {
            Some(Reading::Link)
        } else {
            None
        }
    }
}
