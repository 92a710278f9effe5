//! What is told of a text, beside what is due.
use std::process::Abort;

/// What is told of a text has to be what is due.
pub(crate) fn check_told(rt: &impl Abort, text: &str, told: &str, due: &str) {
    assert_eq!(rt; told, due, "{text:?}");
}
