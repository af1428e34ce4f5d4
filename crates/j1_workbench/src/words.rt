// The words of a command line.
ghost use Rattle.std.specs.Prelude.{◌≡◌, ℕ, List, Option, map, option_map, string_bytes};
ghost use Rattle.j1_workbench.specs.Words.{steps_of, one_name, two_names, name_and_steps, make_of, request_for, request_of, Request, Run, Build, Execute, ListImage, Assemble, Certify, Evaluate, Forth, Make, Bound, Net, WriteMemory, WriteKernel, Trace};
ghost use Rattle.net_file.specs.Net.{is_file_name};
ghost use Rattle.j1_workbench.specs.Commands.{requested};

use net_file::number_in;

/// What the words of a command line ask for, with the names of its files and its numbers.
#[derive(Clone, Copy, Debug)]
pub enum Command<'a> {
    Run { source: &'a str, steps: Option<u32> },
    Build { source: &'a str, image: &'a str },
    Execute { image: &'a str, steps: Option<u32> },
    ListImage { image: &'a str },
    Assemble { listing: &'a str, image: &'a str },
    Certify { source: &'a str },
    Evaluate { source: &'a str, steps: Option<u32> },
    Forth { steps: Option<u32> },
    Make { seed: u32, count: u32 },
    Bound { source: &'a str },
    Net { file: &'a str },
    WriteMemory { image: &'a str, text: &'a str },
    WriteKernel { image: &'a str },
    Trace { image: &'a str, steps: Option<u32> },
}

// The greatest numbers of instructions and of word steps that words may give.
const MOST_STEPS: u32 = 1_000_000_000;

const MOST_WORD_STEPS: u32 = 20_000_000;

// The greatest number of instructions of a trace.
const MOST_TRACED: u32 = 1_000_000;

// Whether a word can name a file.
fn is_name(word: &[u8]) -> bool
    ensures { result ≡ is_file_name word.now }
{
    match word {
        [] => false,
        [first, rest @ ..] => *first != b'-' && rest.len() < 255,
    }
}

// No more words, or `--steps` and a number of at most `most`.
fn steps_of(words: &[String], most: u32) -> Option<Option<u32>>
    ensures { result ≡ steps_of most (map string_bytes words.now) }
{
    match words {
        [] => Some(None),
        [option, number] => {
            if option.as_str() == "--steps" {
                match number_in(number.as_bytes(), 10, most) {
                    Some(steps) => Some(Some(steps)),
                    None => None,
                }
            } else {
                None
            }
        }
        _ => None,
    }
}

// One name.
fn one_name(words: &[String]) -> Option<&str>
    ensures { (form : List ℕ → Request) → option_map (λ name. form name.now) result ≡ one_name form (map string_bytes words.now) }
{
    match words {
        [name] => {
            if is_name(name.as_bytes()) {
                Some(name.as_str())
            } else {
                None
            }
        }
        _ => None,
    }
}

// Two names.
fn two_names(words: &[String]) -> Option<(&str, &str)>
    ensures { (form : List ℕ → List ℕ → Request) → option_map (λ names. form names.0.now names.1.now) result ≡ two_names form (map string_bytes words.now) }
{
    match words {
        [first, second] => {
            if is_name(first.as_bytes()) && is_name(second.as_bytes()) {
                Some((first.as_str(), second.as_str()))
            } else {
                None
            }
        }
        _ => None,
    }
}

// A name, and then perhaps steps.
fn name_and_steps(words: &[String], most: u32) -> Option<(&str, Option<u32>)>
    ensures { (form : List ℕ → Option ℕ → Request) → option_map (λ given. form given.0.now given.1) result ≡ name_and_steps most form (map string_bytes words.now) }
{
    match words {
        [] => None,
        [name, rest @ ..] => {
            if is_name(name.as_bytes()) {
                match steps_of(rest, most) {
                    Some(steps) => Some((name.as_str(), steps)),
                    None => None,
                }
            } else {
                None
            }
        }
    }
}

// A seed and a count.
fn make_of(words: &[String]) -> Option<(u32, u32)>
    ensures { option_map (λ numbers. Make numbers.0 numbers.1) result ≡ make_of (map string_bytes words.now) }
{
    match words {
        [seed, count] => match (
            number_in(seed.as_bytes(), 10, 65_535),
            number_in(count.as_bytes(), 10, 200),
        ) {
            (Some(seed), Some(count)) => { if count > 0 { Some((seed, count)) } else { None } }
            _ => None,
        },
        _ => None,
    }
}

// The command of a word and the words behind it.
fn command_for<'a>(command: &str, words: &'a [String]) -> Option<Command<'a>>
    ensures { option_map requested result ≡ request_for command.now (map string_bytes words.now) }
{
    if command == "run" {
        name_and_steps(words, MOST_STEPS).map(|(source, steps)| Command::Run { source, steps })
    } else if command == "build" {
        two_names(words).map(|(source, image)| Command::Build { source, image })
    } else if command == "exec" {
        name_and_steps(words, MOST_STEPS).map(|(image, steps)| Command::Execute { image, steps })
    } else if command == "list" {
        one_name(words).map(|image| Command::ListImage { image })
    } else if command == "asm" {
        two_names(words).map(|(listing, image)| Command::Assemble { listing, image })
    } else if command == "certify" {
        one_name(words).map(|source| Command::Certify { source })
    } else if command == "eval" {
        name_and_steps(words, MOST_WORD_STEPS).map(|(source, steps)| Command::Evaluate {
            source,
            steps,
        })
    } else if command == "forth" {
        steps_of(words, MOST_STEPS).map(|steps| Command::Forth { steps })
    } else if command == "make" {
        make_of(words).map(|(seed, count)| Command::Make { seed, count })
    } else if command == "bound" {
        one_name(words).map(|source| Command::Bound { source })
    } else if command == "net" {
        one_name(words).map(|file| Command::Net { file })
    } else if command == "hex" {
        two_names(words).map(|(image, text)| Command::WriteMemory { image, text })
    } else if command == "kernel" {
        one_name(words).map(|image| Command::WriteKernel { image })
    } else if command == "trace" {
        name_and_steps(words, MOST_TRACED).map(|(image, steps)| Command::Trace { image, steps })
    } else {
        None
    }
}

/// What the words of a command line ask for, where they have the form of a command.
pub fn command_of(words: &[String]) -> Option<Command<'_>>
    ensures { option_map requested result ≡ request_of (map string_bytes words.now) }
{
    match words {
        [] => None,
        [command, rest @ ..] => command_for(command.as_str(), rest),
    }
}
