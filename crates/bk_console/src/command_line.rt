// The words of the command line.
ghost use Rattle.std.specs.Prelude.{◌≡◌, ◌↔◌, [], Some, None, map, IfOk, IfSome, IsErrOf, option_map, codes};
ghost use Rattle.std.specs.String.{string_bytes};
ghost use Rattle.bk_console.specs.Given.{meant_before, Takes, TakesWord};
ghost use Rattle.bk_console.specs.Words as spec;
ghost use Rattle.bk_console.specs.Words.{options_of, as_asked, number_of, behind, with_dir, with_stop, with_instance, with_other};
ghost use Rattle.bk_console.specs.declared.command_line.WordsError.TheVariants.{NoMemory, Usage};

use std::alloc::{AllocError, Global};
use thiserror::Error;

/// Why the words weren't taken.
#[derive(Clone, Copy, Debug, PartialEq, Eq, Error)]
pub enum WordsError {
    /// They are in no form of the command line.
    #[error("usage: sqlbak DIR [-b] [--instance N]")]
    Usage,
    /// Memory was wanting.
    #[error("out of memory")]
    NoMemory,
}

impl From<AllocError> for WordsError {
    ghost from_gives = { λ _ e. e ≡ NoMemory };

    fn from(_: AllocError) -> Self {
        WordsError::NoMemory
    }
}

/// What the words ask for.
#[derive(Debug, Drop)]
pub struct Options {
    /// The directory of the instance, not empty.
    pub dir: String,
    /// Whether the run ends at the first refusal: `-b`.
    pub stop: bool,
    /// The number of an instance that is made, from 1: `--instance`, or 1.
    pub instance: u64,
}

// What may stand next.
#[derive(Clone, Copy, Debug, PartialEq, Eq)]
enum Next {
    // An option or the directory.
    Anything,
    // The value of `--instance`.
    InstanceNumber,
    // The directory alone: `--` was there.
    Directory,
}

// What the words so far gave.
#[derive(Clone, Copy, Debug)]
struct Given<'a> {
    next: Next,
    dir: Option<&'a str>,
    stop: bool,
    instance: Option<u64>,
}

impl<'a> Given<'a> {
    fn with_dir(self, word: &'a str) -> Option<Given<'a>>
        ensures takes { Takes self.entry (with_dir word.now) result }
        ensures next { IfSome result (λ given. given.next ≡ self.entry.next) }
    {
        if word.is_empty() || self.dir.is_some() {
            return None;
        }
        Some(Given {
            dir: Some(word),
            ..self
        })
    }

    fn with_stop(self) -> Option<Given<'a>>
        ensures takes { Takes self.entry with_stop result }
        ensures next { IfSome result (λ given. given.next ≡ self.entry.next) }
    {
        if self.stop {
            return None;
        }
        Some(Given { stop: true, ..self })
    }

    // The value of `--instance`, behind which anything may stand.
    fn with_instance(self, value: &str) -> Option<Given<'a>>
        ensures takes { Takes self.entry (with_instance value.now) result }
        ensures next { IfSome result (λ given. given.next ≡ Next.Anything) }
    {
        let number = number(value)?;
        if self.instance.is_some() {
            return None;
        }
        Some(Given {
            next: Next::Anything,
            instance: Some(number),
            ..self
        })
    }

    // A word that isn't `-b`, `--instance` or `--`.
    fn with_other(self, word: &'a str) -> Option<Given<'a>>
        requires { self.next ≡ Next.Anything }
        ensures takes { Takes self.entry (with_other (behind (codes "--instance=") word.now) word.now) result }
        ensures next { IfSome result (λ given. given.next ≡ Next.Anything) }
    {
        if let Some(value) = instance_value(word) {
            return self.with_instance(value);
        }
        if begins_with_hyphen(word.as_bytes()) {
            return None;
        }
        self.with_dir(word)
    }

    // A word where an option may stand.
    fn with_any(self, word: &'a str) -> Option<Given<'a>>
        requires { self.next ≡ Next.Anything }
        ensures { TakesWord self.entry word.now result }
    {
        match word {
            "-b" => self.with_stop(),
            "--instance" => Some(Given {
                next: Next::InstanceNumber,
                ..self
            }),
            "--" => Some(Given {
                next: Next::Directory,
                ..self
            }),
            _ => self.with_other(word),
        }
    }

    // One word more; none where it is out of form, or stands there twice.
    fn with(self, word: &'a str) -> Option<Given<'a>>
        ensures { TakesWord self.entry word.now result }
    {
        match self.next {
            Next::Anything => self.with_any(word),
            Next::InstanceNumber => self.with_instance(word),
            Next::Directory => self.with_dir(word),
        }
    }

    // What is asked for where no word is left.
    fn options(self, alloc: Global) -> Result<Options, WordsError>
        ensures asked { IfOk result (λ options. meant_before self.entry [] ≡ Some (as_asked options)) }
        ensures usage { IsErrOf result Usage ↔ (meant_before self.entry [] ≡ None) }
    {
        let Some(dir) = self.dir else {
            return Err(WordsError::Usage);
        };
        if self.next == Next::InstanceNumber {
            return Err(WordsError::Usage);
        }
        Ok(Options {
            dir: String::from_str(alloc, dir)?,
            stop: self.stop,
            instance: self.instance.unwrap_or(1),
        })
    }
}

fn begins_with_hyphen(word: &[u8]) -> bool
    ensures { result ≡ spec.begins_with_hyphen word.now }
{
    match word {
        [first, ..] => *first == b'-',
        [] => false,
    }
}

fn begins_as_number(word: &[u8]) -> bool
    ensures { result ≡ spec.begins_as_number word.now }
{
    match word {
        [first, ..] => b'1' <= *first && *first <= b'9',
        [] => false,
    }
}

// The number that the word writes in decimal digits, without a sign or a leading zero.
fn number(word: &str) -> Option<u64>
    ensures { result ≡ number_of word.now }
{
    if !begins_as_number(word.as_bytes()) {
        return None;
    }
    word.parse().ok()
}

// What stands behind `--instance=`.
fn instance_value(word: &str) -> Option<&str>
    ensures { option_map (λ value. value.now) result ≡ behind (codes "--instance=") word.now }
{
    word.strip_prefix("--instance=")
}

/// Reads the words behind the program's name: one directory, which isn't empty, and in any order `-b` and `--instance`
/// with a value of 1 to 18,446,744,073,709,551,615 behind it or behind its `=`, each at most once. `--` ends the options:
/// before it no other word begins with `-`, and behind it each is a directory.
///
/// `Usage` comes exactly where the words are out of form, and before memory is taken.
pub fn words(alloc: Global, words: &[String]) -> Result<Options, WordsError>
    ensures asked { IfOk result (λ options. options_of (map string_bytes words.now) ≡ Some (as_asked options)) }
    ensures usage { IsErrOf result Usage ↔ (options_of (map string_bytes words.now) ≡ None) }
{
    let mut given = Given {
        next: Next::Anything,
        dir: None,
        stop: false,
        instance: None,
    };
    for word in words {
        given = given.with(word.as_str()).ok_or(WordsError::Usage)?;
    }
    given.options(alloc)
}
