//! The arguments of the program.

ghost use Rattle.std.specs.Prelude.{◌≡◌, map, string_bytes};
ghost use Rattle.std.specs.Option.{option_map};
ghost use Rattle.frame_table.specs.Arguments.{request_by, request_of};
ghost use Rattle.frame_table.specs.ArgumentViews.{request_view};

use frame_table_files::SectionName;

/// How the program is called.
pub(crate) const USAGE: &str = "usage: frame_table [FILE [SECTION]]
Lists .eh_frame of an ELF file, or else .debug_frame, or the one that SECTION names; without FILE the section of the JSON document
on standard input.";

/// What a run is asked for.
#[derive(Debug, Clone, Copy)]
pub(crate) enum Request<'a> {
    /// The section of the document on standard input.
    Document,
    /// A section of a file: the one with a name, or else the one that is there.
    File(&'a str, Option<SectionName>),
    /// How the program is called.
    Help,
}

// What one argument asks for.
fn request_by(word: &str) -> Request<'_>
    ensures { request_view result ≡ request_by word.now }
{
    match word {
        "--help" | "-h" => Request::Help,
        path => Request::File(path, None),
    }
}

/// What the arguments ask for, after the program's name: `None` if they are too many, or name another section.
pub(crate) fn request_of(words: &[String]) -> Option<Request<'_>>
    ensures { option_map request_view result ≡ request_of (map string_bytes words.now) }
{
    match words {
        [] => Some(Request::Document),
        [word] => Some(request_by(word.as_str())),
        [path, name] => {
            let section = SectionName::named(name.as_str())?;
            Some(Request::File(path.as_str(), Some(section)))
        }
        _ => None,
    }
}
