//! The arguments of the program.

ghost use Rattle.std.specs.Prelude.{◌≡◌, ◌<◌, IfSome, map, option_map, string_bytes};
ghost use Rattle.backtrace.specs.Arguments.{begins_with_dash, digit_of, number_of, lint_request, number_with, option_among, parsed_limit, parsed_next, parsed_path, parsed_thread, parsed_word, request_by, request_of, stacks_request, with_frames};
ghost use Rattle.backtrace.specs.ArgumentViews.{parsed_seen, request_seen};

use backtrace_json::TextForm;
use backtrace_text::FunctionNames;
use backtrace_walks::{BacktraceOptions, FrameOptions};

/// How the program is called.
pub(crate) const USAGE: &str =
    "usage: backtrace CORE [--root DIR] [--debug-root DIR] [--thread ID] [--limit N] [--registers] [--raw-names]
                      [--json]
       backtrace --lint FILE..
Prints why the process of a core file died, and the stacks of its threads.
  --root DIR        reads the files that the core names below DIR
  --debug-root DIR  looks for files with symbols below DIR, by build ids and links, and not below /usr/lib/debug
  --thread ID       prints the stack of this thread alone
  --limit N         prints at most N frames of a stack, 1048576 without it
  --registers       prints the registers of each frame too
  --raw-names       prints names of functions as symbols have them, not as they are written in programs
  --json            prints a document of JSON, not lines
With --lint prints what an unwinder meets in the call frames of ELF files: the error that ends the entries of .eh_frame, or of
.debug_frame if a file has no .eh_frame, the FDEs that an index leaves out and those that overlap, the rows that no unwind rule
expresses or that fail, and why an .eh_frame_hdr isn't truthful. The exit status is 1 if it prints something, 2 if a file can't
be read.";

// The most frames of a stack, if no limit is said.
const DEFAULT_LIMIT: u64 = 1 << 20;

// The folder where distributions have files with symbols.
const DEFAULT_DEBUG_ROOT: &str = "/usr/lib/debug";

/// The stacks that a run is asked for.
#[derive(Clone, Copy, Debug)]
pub(crate) struct CoreRequest<'a> {
    /// The path of the core.
    pub(crate) core: &'a str,
    /// The folder that the names of mapped files are below, or no text.
    pub(crate) root: &'a str,
    /// The folder that files with symbols are below, by their build ids or in the folders of links.
    pub(crate) debug_root: &'a str,
    /// Which stacks, and how much of each.
    pub(crate) options: BacktraceOptions,
}

/// What a run is asked for.
#[derive(Clone, Copy, Debug)]
pub(crate) enum Request<'a> {
    /// The stacks of a core.
    Stacks(CoreRequest<'a>),
    /// The findings of files.
    Lint(&'a [String]),
    /// How the program is called.
    Help,
}

// What the next word is.
#[derive(Clone, Copy, Debug)]
enum Awaited {
    // The path of the core, or an option.
    Word,
    // The folder of `--root`.
    Root,
    // The folder of `--debug-root`.
    DebugRoot,
    // The number of `--thread`.
    Thread,
    // The number of `--limit`.
    Limit,
}

// What the words so far say.
#[derive(Clone, Copy, Debug)]
struct Parsed<'a> {
    core: Option<&'a str>,
    root: &'a str,
    debug_root: &'a str,
    options: BacktraceOptions,
    help: bool,
    awaited: Awaited,
}

// The value of a decimal digit.
fn digit_of(byte: u8) -> Option<u64>
    ensures { result ≡ digit_of byte }
{
    if b'0' <= byte && byte <= b'9' {
        Some(u64::from(byte - b'0'))
    } else {
        None
    }
}

// A number with a digit more, if it is one of 64 bits.
fn number_with(number: u64, byte: u8) -> Option<u64>
    ensures { result ≡ number_with number byte }
{
    let Some(digit) = digit_of(byte) else {
        return None;
    };
    match number.checked_mul(10) {
        Some(tens) => tens.checked_add(digit),
        None => None,
    }
}

// The number that decimal digits say, if it is one of 64 bits.
fn number_of(word: &str) -> Option<u64>
    ensures { result ≡ number_of word.now }
{
    if word.is_empty() {
        return None;
    }
    let mut number = 0;
    for byte in word.as_bytes() {
        let Some(next) = number_with(number, *byte) else {
            return None;
        };
        number = next;
    }
    Some(number)
}

// Whether a word begins as an option does.
fn begins_with_dash(word: &str) -> bool
    ensures { result ≡ begins_with_dash word.now }
{
    match word.as_bytes() {
        [first, ..] => *first == b'-',
        [] => false,
    }
}

// What the words say, with the path of the core, if there is none yet.
fn parsed_path<'a>(parsed: Parsed<'a>, word: &'a str) -> Option<Parsed<'a>>
    ensures { option_map parsed_seen result ≡ parsed_path (parsed_seen parsed.entry) word.entry.now }
{
    if parsed.core.is_some() || begins_with_dash(word) {
        return None;
    }
    Some(Parsed {
        core: Some(word),
        ..parsed
    })
}

// What the words say, with another of what is shown of frames.
fn with_frames<'a>(parsed: Parsed<'a>, frames: FrameOptions) -> Parsed<'a>
    ensures { parsed_seen result ≡ with_frames frames (parsed_seen parsed.entry) }
{
    Parsed {
        options: BacktraceOptions {
            frames,
            ..parsed.options
        },
        ..parsed
    }
}

// What the words say, with one that is no value of an option.
fn parsed_word<'a>(parsed: Parsed<'a>, word: &'a str) -> Option<Parsed<'a>>
    ensures { option_map parsed_seen result ≡ parsed_word (parsed_seen parsed.entry) word.entry.now }
{
    match word {
        "--root" => Some(Parsed {
            awaited: Awaited::Root,
            ..parsed
        }),
        "--debug-root" => Some(Parsed {
            awaited: Awaited::DebugRoot,
            ..parsed
        }),
        "--thread" => Some(Parsed {
            awaited: Awaited::Thread,
            ..parsed
        }),
        "--limit" => Some(Parsed {
            awaited: Awaited::Limit,
            ..parsed
        }),
        "--registers" => Some(with_frames(
            parsed,
            FrameOptions {
                registers: true,
                ..parsed.options.frames
            },
        )),
        "--raw-names" => Some(with_frames(
            parsed,
            FrameOptions {
                names: FunctionNames::Raw,
                ..parsed.options.frames
            },
        )),
        "--json" => Some(Parsed {
            options: BacktraceOptions {
                form: TextForm::Json,
                ..parsed.options
            },
            ..parsed
        }),
        "--help" | "-h" => Some(Parsed {
            help: true,
            ..parsed
        }),
        path => parsed_path(parsed, path),
    }
}

// What the words say, with the id of a thread.
fn parsed_thread<'a>(parsed: Parsed<'a>, word: &str) -> Option<Parsed<'a>>
    ensures { option_map parsed_seen result ≡ parsed_thread (parsed_seen parsed.entry) word.now }
{
    match number_of(word) {
        Some(thread) => Some(Parsed {
            options: BacktraceOptions {
                thread: Some(thread),
                ..parsed.options
            },
            awaited: Awaited::Word,
            ..parsed
        }),
        None => None,
    }
}

// What the words say, with a limit of frames.
fn parsed_limit<'a>(parsed: Parsed<'a>, word: &str) -> Option<Parsed<'a>>
    ensures { option_map parsed_seen result ≡ parsed_limit (parsed_seen parsed.entry) word.now }
{
    match number_of(word) {
        Some(limit) => Some(Parsed {
            options: BacktraceOptions {
                limit,
                ..parsed.options
            },
            awaited: Awaited::Word,
            ..parsed
        }),
        None => None,
    }
}

// What the words say, with one more.
fn parsed_next<'a>(parsed: Parsed<'a>, word: &'a str) -> Option<Parsed<'a>>
    ensures { option_map parsed_seen result ≡ parsed_next (parsed_seen parsed.entry) word.entry.now }
{
    match parsed.awaited {
        Awaited::Word => parsed_word(parsed, word),
        Awaited::Root => Some(Parsed {
            root: word,
            awaited: Awaited::Word,
            ..parsed
        }),
        Awaited::DebugRoot => Some(Parsed {
            debug_root: word,
            awaited: Awaited::Word,
            ..parsed
        }),
        Awaited::Thread => parsed_thread(parsed, word),
        Awaited::Limit => parsed_limit(parsed, word),
    }
}

// What words ask for, once all are read.
fn request_by<'a>(parsed: Parsed<'a>) -> Option<Request<'a>>
    ensures { option_map request_seen result ≡ request_by (parsed_seen parsed.entry) }
{
    if parsed.help {
        return Some(Request::Help);
    }
    let Awaited::Word = parsed.awaited else {
        return None;
    };
    match parsed.core {
        Some(core) => Some(Request::Stacks(CoreRequest {
            core,
            root: parsed.root,
            debug_root: parsed.debug_root,
            options: parsed.options,
        })),
        None => None,
    }
}

// The stacks that words ask for.
fn stacks_request(words: &[String]) -> Option<Request<'_>>
    ensures { option_map request_seen result ≡ stacks_request (map string_bytes words.now) }
{
    let mut parsed = Parsed {
        core: None,
        root: "",
        debug_root: DEFAULT_DEBUG_ROOT,
        options: BacktraceOptions {
            thread: None,
            limit: DEFAULT_LIMIT,
            frames: FrameOptions {
                registers: false,
                names: FunctionNames::Demangled,
            },
            form: TextForm::Lines,
        },
        help: false,
        awaited: Awaited::Word,
    };
    for word in words {
        let Some(next) = parsed_next(parsed, word.as_str()) else {
            return None;
        };
        parsed = next;
    }
    request_by(parsed)
}

// Whether a word is an option.
fn option_among(words: &[String]) -> bool
    ensures { result ≡ option_among (map string_bytes words.now) }
{
    for word in words {
        if begins_with_dash(word.as_str()) {
            return true;
        }
    }
    false
}

// The findings that the words after `--lint` ask for, if they name a file.
fn lint_request(words: &[String]) -> Option<Request<'_>>
    ensures { option_map request_seen result ≡ lint_request (map string_bytes words.now) }
{
    if words.is_empty() || option_among(words) {
        return None;
    }
    Some(Request::Lint(words))
}

/// What the arguments ask for, after the program's name: `None` if they name an option that there isn't, if a value is missing or no
/// number of 64 bits, or if they have no core or two. After `--lint` there are names of files alone, one at least.
pub(crate) fn request_of(words: &[String]) -> Option<Request<'_>>
    ensures { option_map request_seen result ≡ request_of (map string_bytes words.now) }
{
    match words {
        [first, files @ ..] => match first.as_str() {
            "--lint" => lint_request(files),
            _ => stacks_request(words),
        },
        [] => None,
    }
}
