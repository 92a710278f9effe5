//! Faults of a deck.
ghost use Rattle.std.specs.Prelude.{◌≡◌, is_err};
ghost use Rattle.edge_io.specs.Out.{has_failed, Puts};
ghost use Rattle.board_report.specs.Refusals.{check_text, code_text, crew_text, fault_line, lex_text, what_text};

use crew_script::CrewCode;
use deck_reading::{DeckFault, FaultCode};
use edge_io::{Out, Sink, WriteFault};
use galileo_lexer::LexCode;
use galileo_tree::What;
use itoa::Buffer;
use text_pieces::put_all;
use tree_check::CheckCode;

/// Puts the line of a fault.
pub fn put_fault<K: Sink>(out: &mut Out<K>, fault: &DeckFault) -> Result<(), WriteFault>
    ensures puts { Puts K.taken K.faults out.old out.new (fault_line fault.now) }
    ensures answer { is_err result ≡ has_failed out.new }
{
    let mut line = Buffer::new();
    let mut column = Buffer::new();
    put_all(
        out,
        &[
            b"refused: ",
            code_text(fault.code),
            b" at ",
            line.format(fault.place.line).as_bytes(),
            b":",
            column.format(fault.place.column).as_bytes(),
            b"\n",
        ],
    )
}

fn code_text(code: FaultCode) -> &'static [u8]
    ensures { result.now ≡ code_text code }
{
    match code {
        FaultCode::Lex(code) => lex_text(code),
        FaultCode::Expected(what) => what_text(what),
        FaultCode::Check(code) => check_text(code),
        FaultCode::Crew(code) => crew_text(code),
    }
}

fn lex_text(code: LexCode) -> &'static [u8]
    ensures { result.now ≡ lex_text code }
{
    match code {
        LexCode::BadByte => b"L1 bad byte",
        LexCode::OpenQuote => b"L2 open quote",
        LexCode::OpenComment => b"L3 open comment",
        LexCode::EmptyName => b"L4 empty name",
        LexCode::NameTooLong => b"L5 name too long",
    }
}

fn what_text(what: What) -> &'static [u8]
    ensures { result.now ≡ what_text what }
{
    match what {
        What::Statement => b"P1 expected statement",
        What::Name => b"P1 expected name",
        What::Semicolon => b"P1 expected semicolon",
        What::GateOrAttribute => b"P1 expected gate or attribute",
        What::Equals => b"P1 expected equals",
        What::Input => b"P1 expected input",
        What::Value => b"P1 expected value",
        What::Attribute => b"P1 expected attribute",
    }
}

fn check_text(code: CheckCode) -> &'static [u8]
    ensures { result.now ≡ check_text code }
{
    match code {
        CheckCode::NoToplevel => b"C1 no toplevel",
        CheckCode::TwoToplevels => b"C2 two toplevels",
        CheckCode::DuplicateName => b"C3 duplicate name",
        CheckCode::Undefined => b"C4 undefined name",
        CheckCode::Votes => b"C5 votes",
        CheckCode::DummyInput => b"C6 dummy input",
        CheckCode::NoInputs => b"C7 no inputs",
        CheckCode::FdepShape => b"C8 fdep shape",
        CheckCode::DependentGate => b"C9 dependent gate",
        CheckCode::SpareNotBasic => b"C10 spare not basic",
        CheckCode::SharedSpare => b"C11 shared spare",
        CheckCode::Replicated => b"C12 replicated",
        CheckCode::TopIsFdep => b"C13 top is fdep",
        CheckCode::Cycle => b"C14 cycle",
        CheckCode::TooManyUnits => b"C15 too many units",
        CheckCode::TooManyGates => b"C16 too many gates",
    }
}

fn crew_text(code: CrewCode) -> &'static [u8]
    ensures { result.now ≡ crew_text code }
{
    match code {
        CrewCode::NoCrewPart => b"S1 no crew part",
        CrewCode::BadLine => b"S2 bad line",
        CrewCode::DuplicateCrew => b"S3 duplicate crew",
        CrewCode::RequestBeforeCrew => b"S4 request before crew",
        CrewCode::TooManyCrews => b"S5 too many crews",
        CrewCode::TooManyRequests => b"S6 too many requests",
    }
}
