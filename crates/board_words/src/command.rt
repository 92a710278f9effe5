//! The command that words say.
ghost use Rattle.std.specs.Prelude.{◌≡◌, ◌∷◌};
ghost use Rattle.board_words.specs.Command.{command_of, cuts_of, board_of, diagram_of, make_of, if_alone};
ghost use Rattle.board_words.specs.Command.{most_in, workers_in, show_in, show_said};

use crate::Word;
use crate::options::{are_options, number_said, value_of};
use deck_limits::{GREATEST_MARGIN, HIGHEST_MADE, MOST_ORDERED, MOST_WORKERS};

/// What of a made deck is printed.
#[derive(Clone, Copy, PartialEq, Eq)]
pub enum Show {
    /// The deck itself.
    Deck,
    /// The numbers that describe it.
    Summary,
}

/// What the program is asked to do.
#[derive(Clone, Copy)]
pub enum Command {
    /// Print the cut sets, each with its failing orders where it has at most `most` members.
    Cuts {
        most: u32,
        workers: u32,
    },
    /// Print the same, and the log of a board at this margin that serves the crews.
    Board {
        margin: u32,
        most: u32,
        workers: u32,
    },
    /// Print whether the deck is well formed.
    Check,
    /// Print the tree.
    Print,
    /// Print the sizes of the diagram of the cut sets.
    Diagram {
        workers: u32,
    },
    /// Print a made deck.
    Make {
        number: u32,
        show: Show,
    },
    /// Print the usage line.
    Help,
}

/// The command of these words, the program's name left out; `None` where they are none.
///
/// The first word is exactly a command. Behind it stand options, each with its value, in any order and each once at
/// most.
pub fn read(words: &[Word]) -> Option<Command>
    ensures { result ≡ command_of words.now }
{
    let [first, options @ ..] = words else {
        return None;
    };
    named(first.as_slice(), options)
}

// The command of this name with these options.
fn named(first: &[u8], options: &[Word]) -> Option<Command>
    ensures { result ≡ command_of (first.now ∷ options.now) }
{
    if first == b"cuts".as_slice() {
        cuts(options)
    } else if first == b"board".as_slice() {
        board(options)
    } else if first == b"check".as_slice() {
        alone(Command::Check, options)
    } else if first == b"print".as_slice() {
        alone(Command::Print, options)
    } else if first == b"diagram".as_slice() {
        diagram(options)
    } else if first == b"make".as_slice() {
        make(options)
    } else if first == b"help".as_slice() {
        alone(Command::Help, options)
    } else {
        None
    }
}

// A command that has no options.
fn alone(command: Command, options: &[Word]) -> Option<Command>
    ensures { result ≡ if_alone command options.now }
{
    match options {
        [] => Some(command),
        [_, ..] => None,
    }
}

fn cuts(options: &[Word]) -> Option<Command>
    ensures { result ≡ cuts_of options.now }
{
    if !are_options(&[b"--most", b"--workers"], options) {
        return None;
    }
    let most = most(options)?;
    let workers = workers(options)?;
    Some(Command::Cuts { most, workers })
}

fn board(options: &[Word]) -> Option<Command>
    ensures { result ≡ board_of options.now }
{
    if !are_options(&[b"--margin", b"--most", b"--workers"], options) {
        return None;
    }
    let margin = number_said(options, b"--margin", 0, GREATEST_MARGIN, Some(0))?;
    let most = most(options)?;
    let workers = workers(options)?;
    Some(Command::Board {
        margin,
        most,
        workers,
    })
}

fn diagram(options: &[Word]) -> Option<Command>
    ensures { result ≡ diagram_of options.now }
{
    if !are_options(&[b"--workers"], options) {
        return None;
    }
    let workers = workers(options)?;
    Some(Command::Diagram { workers })
}

fn make(options: &[Word]) -> Option<Command>
    ensures { result ≡ make_of options.now }
{
    if !are_options(&[b"--number", b"--show"], options) {
        return None;
    }
    let number = number_said(options, b"--number", 0, HIGHEST_MADE, None)?;
    let show = shown(options)?;
    Some(Command::Make { number, show })
}

// The most members of a set whose orders are listed.
fn most(options: &[Word]) -> Option<u32>
    ensures { result ≡ most_in options.now }
{
    number_said(options, b"--most", 0, MOST_ORDERED, Some(6))
}

fn workers(options: &[Word]) -> Option<u32>
    ensures { result ≡ workers_in options.now }
{
    number_said(options, b"--workers", 1, MOST_WORKERS, Some(4))
}

fn shown(options: &[Word]) -> Option<Show>
    ensures { result ≡ show_in options.now }
{
    match value_of(b"--show", options) {
        Some(value) => read_show(value.as_slice()),
        None => Some(Show::Summary),
    }
}

fn read_show(value: &[u8]) -> Option<Show>
    ensures { result ≡ show_said (Some value.now) }
{
    if value == b"deck".as_slice() {
        Some(Show::Deck)
    } else if value == b"summary".as_slice() {
        Some(Show::Summary)
    } else {
        None
    }
}
