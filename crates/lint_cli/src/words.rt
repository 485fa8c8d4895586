//! The words of the command line.
ghost use Rattle.std.specs.Prelude.{◌≡◌, ◌≤◌, drop, not, length};
ghost use Rattle.std.specs.List.{list_all};
ghost use Rattle.lint_cli.specs.Words.{texts, no_options, is_strict, is_all, is_bare, options_from, names_from, options_of, named, is_option, most_names, are_words};

/// What options ask for.
#[derive(Clone, Copy)]
pub struct Options {
    /// A warning makes the answer `Found`.
    pub strict: bool,
    /// Lines that match no device of the script are warned of too.
    pub all: bool,
    /// There is no script.
    pub bare: bool,
}

/// The most INFs.
const MOST_INFS: usize = 64;

/// Whether the word is `--strict`.
fn is_strict(word: &[u8]) -> bool
    ensures { result ≡ is_strict word.now }
{
    word == b"--strict".as_slice()
}

/// Whether the word is `--all`.
fn is_all(word: &[u8]) -> bool
    ensures { result ≡ is_all word.now }
{
    word == b"--all".as_slice()
}

/// Whether the word is `--inf`.
fn is_bare(word: &[u8]) -> bool
    ensures { result ≡ is_bare word.now }
{
    word == b"--inf".as_slice()
}

/// The options before the names, on top of these, and how many words they are.
fn options_from(words: &[String]) -> (Options, usize)
    ensures options { result.0 ≡ options_from no_options (texts words.now) }
    ensures names { texts (drop result.1 words.now) ≡ names_from (texts words.now) }
    ensures within { result.1 ≤ length words.now }
{
    let mut options = Options {
        strict: false,
        all: false,
        bare: false,
    };
    for at in 0..words.len() {
        let word = words[at].as_bytes();
        if is_strict(word) {
            options.strict = true;
        } else if is_all(word) {
            options.all = true;
        } else if is_bare(word) {
            options.bare = true;
        } else {
            return (options, at);
        }
    }
    (options, words.len())
}

/// What words ask for, and the names behind it.
#[derive(Drop)]
pub struct Asked<'a> {
    /// The options.
    pub options: Options,
    /// The names of files.
    pub names: &'a [String],
}

/// What the words behind the program's name ask for.
pub fn asked_by(words: &[String]) -> Asked<'_>
    ensures options { result.options ≡ options_of (texts words.now) }
    ensures names { texts result.names.now ≡ named (texts words.now) }
{
    let behind = words.get(1..).unwrap_or(&[]);
    let (options, count) = options_from(behind);
    Asked {
        options,
        names: &behind[count..],
    }
}

/// Whether the word begins with a dash.
fn is_option(word: &[u8]) -> bool
    ensures { result ≡ is_option word.now }
{
    match word {
        [b'-', ..] => true,
        _ => false,
    }
}

/// Whether no word begins with a dash.
fn are_names(words: &[String]) -> bool
    ensures { result ≡ list_all (λ word. not (is_option word)) (texts words.now) }
{
    for word in words {
        if is_option(word.as_bytes()) {
            return false;
        }
    }
    true
}

/// The most files that may be named.
fn most_names(bare: bool) -> usize
    ensures { result ≡ most_names bare }
{
    if bare { MOST_INFS } else { MOST_INFS + 1 }
}

/// Whether the words name a script and up to 64 INFs, or behind `--inf` 1 to 64 INFs.
pub fn are_words(words: &[String]) -> bool
    ensures { result ≡ are_words (texts words.now) }
{
    let asked = asked_by(words);
    if asked.names.is_empty() || asked.names.len() > most_names(asked.options.bare) {
        return false;
    }
    are_names(asked.names)
}
