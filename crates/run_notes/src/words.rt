//! What is wrong with words that were refused, as far as the tables of commands and options tell.

use crate::forms::{FORMS, Form, TAKEN, Taken};
use crate::shown::Shown;
use std::alloc::{AllocError, Global};

/// Which word is wrong, and what is expected, with an example.
pub fn usage_note(alloc: Global, words: &[String]) -> Result<String, AllocError> {
    match words {
        [folder, name, options @ ..] => match form_of(name.as_str()) {
            Some(form) => options_note(alloc, form, options),
            None => command_note(alloc, folder.as_str(), name.as_str()),
        },
        [only] => match form_of(only.as_str()) {
            Some(form) => folder_note(alloc, form),
            None => {
                let mut note = format!(in alloc; "bkd: a command is expected behind the folder: ")?;
                put_commands(&mut note)?;
                Ok(note)
            }
        },
        [] => {
            format!(in alloc; "bkd: a folder and a command are expected, as in: bkd FOLDER check\n")
        }
    }
}

/// The form of a command.
fn form_of(name: &str) -> Option<Form> {
    FORMS.iter().find(|form| form.command == name).copied()
}

/// What is said where the second word is no command.
fn command_note(alloc: Global, folder: &str, name: &str) -> Result<String, AllocError> {
    if let Some(form) = form_of(folder) {
        return folder_note(alloc, form);
    }
    let shown = Shown(name);
    let mut note = format!(in alloc; "bkd: '{shown}' is no command; these are: ")?;
    put_commands(&mut note)?;
    Ok(note)
}

/// What is said where a command stands in the folder's place.
fn folder_note(alloc: Global, form: Form) -> Result<String, AllocError> {
    let example = form.example;
    format!(in alloc; "bkd: the folder comes first, as in: bkd FOLDER {example}\n")
}

/// Appends the names of all commands, to the end of the line.
fn put_commands(note: &mut String) -> Result<(), AllocError> {
    let mut before = "";
    for form in FORMS {
        note.push_str(before)?;
        note.push_str(form.command)?;
        before = ", ";
    }
    note.push('\n')
}

/// What is wrong with the words behind a command.
fn options_note(alloc: Global, form: Form, words: &[String]) -> Result<String, AllocError> {
    let mut is_value = false;
    for (i, word) in words.iter().enumerate() {
        let word = word.as_str();
        if is_value {
            is_value = false;
            continue;
        }
        if let Some(fault) = fault_of(form, words, i, word) {
            return put_fault(alloc, form, &fault);
        }
        is_value = takes_next(form, word);
    }
    for piece in form.form.split(' ') {
        if piece.starts_with("--") && !words.iter().any(|word| split(word.as_str()).0 == piece) {
            return put_fault(alloc, form, &Fault::Needed(piece));
        }
    }
    put_fault(alloc, form, &Fault::Unknown)
}

/// What is wrong with a word behind a command.
#[derive(Clone, Copy)]
enum Fault<'a> {
    /// It is no option.
    NoOption(&'a str),
    /// The command doesn't take this option.
    Foreign(&'a str),
    /// The option stands twice.
    Twice(&'a str),
    /// The option has no value.
    NoValue(Taken),
    /// The option takes no value.
    Flag(&'a str),
    /// The option has a value that it doesn't take.
    Value(Taken, &'a str),
    /// The option is wanting.
    Needed(&'static str),
    /// What the tables don't tell.
    Unknown,
}

/// The fault of the word at this place, which is no option's value.
fn fault_of<'a>(form: Form, words: &'a [String], at: usize, word: &'a str) -> Option<Fault<'a>> {
    let (option, given) = split(word);
    if !option.starts_with("--") {
        return Some(Fault::NoOption(word));
    }
    // (the first of these was taken out)
    if option == "--wait" || option == "--no-lock" {
        return Some(Fault::Twice(option));
    }
    if !takes(form, option) {
        return Some(Fault::Foreign(option));
    }
    if words
        .iter()
        .take(at)
        .any(|it| split(it.as_str()).0 == option)
    {
        return Some(Fault::Twice(option));
    }
    match (taken_of(option), given) {
        (None, None) => None,
        (None, Some(_)) => Some(Fault::Flag(option)),
        (Some(taken), Some(value)) => value_fault(taken, value),
        (Some(taken), None) => match words.get(at.saturating_add(1)) {
            Some(value) => value_fault(taken, value.as_str()),
            None => Some(Fault::NoValue(taken)),
        },
    }
}

/// The fault of a value, where its option's range, or what names of columns are, tells one.
fn value_fault(taken: Taken, value: &str) -> Option<Fault<'_>> {
    let is_good = match (taken.range, value.parse::<u32>()) {
        (Some((least, greatest)), Ok(n)) => least <= n && n <= greatest,
        (Some(_), Err(_)) => false,
        (None, _) => value.split(',').count() <= 8 && !value.split(',').any(|it| it.is_empty()),
    };
    if is_good {
        None
    } else {
        Some(Fault::Value(taken, value))
    }
}

/// An option and what stands behind its `=`, if there is one.
fn split(word: &str) -> (&str, Option<&str>) {
    match word.split_once("=") {
        Some((option, value)) => (option, Some(value)),
        None => (word, None),
    }
}

/// Whether a command takes an option.
fn takes(form: Form, option: &str) -> bool {
    form.form.split(' ').any(|piece| bare(piece) == option)
}

/// A piece of a form without its brackets.
fn bare(piece: &str) -> &str {
    let piece = piece.strip_prefix("[").unwrap_or(piece);
    piece.strip_suffix("]").unwrap_or(piece)
}

/// Whether the next word is the value of this one.
fn takes_next(form: Form, word: &str) -> bool {
    takes(form, word) && taken_of(word).is_some()
}

/// What an option takes, if it takes a value.
fn taken_of(option: &str) -> Option<Taken> {
    TAKEN.iter().find(|taken| taken.option == option).copied()
}

/// A fault as a note.
fn put_fault(alloc: Global, form: Form, fault: &Fault<'_>) -> Result<String, AllocError> {
    let (command, whole, example) = (form.command, form.form, form.example);
    match *fault {
        Fault::NoOption(word) => {
            let word = Shown(word);
            format!(in alloc; "bkd: '{word}' is no option of {command}; expected: {whole}\n")
        }
        Fault::Foreign(option) => {
            let option = Shown(option);
            format!(in alloc; "bkd: {command} takes no {option}; expected: {whole}\n")
        }
        Fault::Twice(option) => format!(in alloc;
            "bkd: {option} stands twice; expected: {whole}\n"
        ),
        Fault::NoValue(taken) => {
            let (option, value, example) = (taken.option, taken.value, taken.example);
            format!(in alloc; "bkd: {option} needs a value: {value}, as in: {example}\n")
        }
        Fault::Flag(option) => format!(in alloc;
            "bkd: {option} takes no value; expected: {whole}\n"
        ),
        Fault::Value(taken, given) => {
            let (option, value, example) = (taken.option, taken.value, taken.example);
            let given = Shown(given);
            format!(in alloc; "bkd: {option} can't be '{given}': {value}, as in: {example}\n")
        }
        Fault::Needed(option) => {
            format!(in alloc; "bkd: {command} needs {option}, as in: {example}\n")
        }
        Fault::Unknown => format!(in alloc; "bkd: expected: {whole}, as in: {example}\n"),
    }
}
