//! The forms of the words that name a policy, as text.

use crate::policy_word::PolicyWord;
use std::fmt;

impl fmt::Display for PolicyWord {
    /// Writes the word, or the letter of a number.
    fn fmt<W: fmt::Write>(&self, f: &mut fmt::Formatter<W>) -> fmt::Result {
        match self {
            PolicyWord::Word(text) => f.write_str(text),
            PolicyWord::Number { letter, .. } => f.write_str(letter),
        }
    }
}

/// A form of the words that name a policy. It is shown with a space between two words.
#[derive(Clone, Copy, Debug)]
pub struct PolicyForm<'a> {
    pub words: &'a [PolicyWord],
}

impl fmt::Display for PolicyForm<'_> {
    fn fmt<W: fmt::Write>(&self, f: &mut fmt::Formatter<W>) -> fmt::Result {
        for (place, word) in self.words.iter().enumerate() {
            f.write_str(if place == 0 { "" } else { " " })?;
            write!(f, "{word}")?;
        }
        Ok(())
    }
}

/// Forms of the words that name a policy. They are shown with 'or' between two of them, and each with what its numbers
/// stand for. Behind such numbers a semicolon stands before the 'or'.
#[derive(Clone, Copy, Debug)]
pub struct PolicyForms<'a> {
    pub forms: &'a [&'a [PolicyWord]],
}

/// Writes what the numbers of a form stand for.
fn write_numbers<W: fmt::Write>(f: &mut fmt::Formatter<W>, form: &[PolicyWord]) -> fmt::Result {
    let mut is_first = true;
    for word in form {
        if let PolicyWord::Number {
            letter,
            what,
            least,
            most,
        } = word
        {
            f.write_str(if is_first { ", where " } else { " and " })?;
            write!(f, "{letter} is {what} from {least} to {most}")?;
            is_first = false;
        }
    }
    Ok(())
}

impl fmt::Display for PolicyForms<'_> {
    fn fmt<W: fmt::Write>(&self, f: &mut fmt::Formatter<W>) -> fmt::Result {
        let mut between = "";
        for form in self.forms {
            f.write_str(between)?;
            write!(f, "`{}`", PolicyForm { words: form })?;
            write_numbers(f, form)?;
            between = if form.len() > 1 { "; or " } else { " or " };
        }
        Ok(())
    }
}
