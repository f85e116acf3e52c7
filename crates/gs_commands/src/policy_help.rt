//! What is said of the words that name a policy.

use gs_script::{NamedPolicy, PolicyForms, PolicyWord};
use std::alloc::AllocError;
use std::fmt::Write;

/// Returns whether a form of words that name a policy begins with this word.
fn begins_with(form: &[PolicyWord], word: &str) -> bool {
    let Some(first) = form.first() else {
        return false;
    };
    match first {
        PolicyWord::Word(first) => *first == word,
        PolicyWord::Number { .. } => false,
    }
}

/// Adds the forms of the words that name a policy, if they are asked for by `policy`. If nothing is said of a word yet, and the words
/// of a policy begin with it, adds their form.
pub(crate) fn add_policies<P: NamedPolicy>(
    text: &mut String,
    word: &str,
) -> Result<(), AllocError> {
    if word == "policy" {
        let forms = P::forms();
        return write!(
            text,
            "words that name a policy: {}\n",
            PolicyForms { forms }
        );
    }
    if !text.is_empty() {
        return Ok(());
    }
    for form in P::forms() {
        if begins_with(form, word) {
            let forms = &[*form];
            write!(
                text,
                "words that name a policy: {}\n",
                PolicyForms { forms }
            )?;
        }
    }
    Ok(())
}
