//! The program: makes the real objects and calls the data path, which does all that matters.
#![tactic(auto)]

use command_line::{WordsFault, options, page_asked_for, usage_line};
use data_path::{FolderError, Status, file_names, llapd, own_line, written};
use generated_store::{Generated, Made};
use outside::{FolderStore, NoMemory, OpenGate, RealWorld, Sink, StdinSource, StdoutSink};
use std::alloc::Global;
use std::process::ExitCode;
use std::{env, io};

/// Exit statuses that are `main`'s own, but the first.
const DONE: u8 = 0;

const FOLDER_FAULT: u8 = 6;

const NO_MEMORY: u8 = 7;

const TOO_MANY_FILES: u8 = 8;

fn main(rt: HostRuntime) -> ExitCode {
    let mut out = StdoutSink::new(io::writer(&rt));
    let code = match program_words(rt) {
        Ok(words) => run_words(rt, words.as_slice(), &mut out),
        Err(WordsError::NotText) => written(&mut out, usage_line(), Status::Usage).code(),
        Err(WordsError::NoMemory) => NO_MEMORY,
    };
    ExitCode::from(code)
}

/// Why the words of the command line couldn't be had.
enum WordsError {
    /// One isn't UTF-8.
    NotText,
    /// Memory was refused.
    NoMemory,
}

/// The words after the program's name.
fn program_words(rt: HostRuntime) -> Result<Vec<String>, WordsError> {
    let mut words = Vec::new(rt.alloc());
    let all = match env::args(&rt) {
        Ok(all) => all,
        Err(e) if e.kind() == io::ErrorKind::OutOfMemory => return Err(WordsError::NoMemory),
        Err(_) => return Err(WordsError::NotText),
    };
    for word in all.skip(1) {
        if words.push(word).is_err() {
            return Err(WordsError::NoMemory);
        }
    }
    Ok(words)
}

/// Runs the program on these words, and answers its exit status. Words that ask for a page have it, and nothing else is done.
fn run_words<K: Sink>(rt: HostRuntime, words: &[String], out: &mut K) -> u8 {
    let mut lent = Vec::new(rt.alloc());
    for word in words {
        if lent.push(word.as_str()).is_err() {
            return NO_MEMORY;
        }
    }
    if let Some(page) = page_asked_for(lent.as_slice()) {
        return own_line(out, page, DONE);
    }
    let names = match file_names(rt) {
        Ok(names) => names,
        Err(FolderError::Fault) => return own_line(out, b"folder fault\n", FOLDER_FAULT),
        Err(FolderError::TooMany) => return own_line(out, b"too many files\n", TOO_MANY_FILES),
        Err(FolderError::NoMemory) => return NO_MEMORY,
    };
    let Ok(made) = made_for(rt.alloc(), lent.as_slice()) else {
        return NO_MEMORY;
    };
    let mut plan = StdinSource::new(rt.reader());
    let mut last = Generated::new(FolderStore::new(rt, names.as_slice()), made);
    let more = Vec::new(rt.alloc());
    let status = llapd::<RealWorld, _, _, _, _>(
        rt.alloc(),
        lent.as_slice(),
        &mut plan,
        &mut last,
        more,
        out,
        &OpenGate,
    );
    status.code()
}

/// The generated file that the words ask for, where they are a command line that asks for one.
fn made_for(alloc: Global, words: &[&str]) -> Result<Option<Made>, NoMemory> {
    let options = match options(alloc, words) {
        Ok(options) => options,
        Err(WordsFault::Usage) => return Ok(None),
        Err(WordsFault::NoMemory) => return Err(NoMemory),
    };
    match options.generated {
        Some(number) => match Made::new(alloc, number, options.rows) {
            Ok(made) => Ok(Some(made)),
            Err(NoMemory) => Err(NoMemory),
        },
        None => Ok(None),
    }
}
