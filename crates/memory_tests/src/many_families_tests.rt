//! Operations on two minimal families and on many, compared with what plain lists of sets say.

mod cases;
mod deep;
mod plain;
mod rounds;
mod words;
