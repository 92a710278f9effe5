//! What an audit says of printed logs.

mod made_logs;
mod verdicts;
