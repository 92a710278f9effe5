//! The traps of the notation's tokens, and each fault once, as texts with what they read as.
use crate::rows::check_told;
use galileo_lexer::{LONGEST_TEXT, LexFault, LexPlace, Lexer, Token};
use std::alloc::Global;
use std::process::Abort;
use std::test::Fail;

// `LINE:COLUMN`
fn tell_place(alloc: Global, told: &mut String, place: LexPlace) -> Result<(), Fail> {
    let LexPlace { line, column } = place;
    told.push_str(format!(in alloc; " {line}:{column}")?.as_str())?;
    Ok(())
}

// `Word 0..2 1:1, `
fn tell_token(alloc: Global, told: &mut String, token: Token) -> Result<(), Fail> {
    let Token {
        kind,
        start,
        end,
        place,
    } = token;
    told.push_str(format!(in alloc; "{kind:?} {start}..{end}")?.as_str())?;
    tell_place(alloc, told, place)?;
    told.push_str(", ")?;
    Ok(())
}

fn tell_fault(alloc: Global, told: &mut String, fault: LexFault) -> Result<(), Fail> {
    let code = fault.code;
    told.push_str(format!(in alloc; "{code:?}")?.as_str())?;
    tell_place(alloc, told, fault.place)
}

// The next token, or what comes in place of one, and whether it is a token. A fault has to be answered again.
fn tell_next(alloc: Global, told: &mut String, lexer: &mut Lexer) -> Result<bool, Fail> {
    match lexer.next() {
        Ok(Some(token)) => {
            tell_token(alloc, told, token)?;
            Ok(true)
        }
        Ok(None) => {
            told.push_str("end")?;
            tell_place(alloc, told, lexer.end())?;
            Ok(false)
        }
        Err(fault) => {
            if lexer.next() != Err(fault) {
                return Err("a fault that is answered once".into());
            }
            tell_fault(alloc, told, fault)?;
            Ok(false)
        }
    }
}

fn tell_text(alloc: Global, told: &mut String, text: &[u8]) -> Result<(), Fail> {
    if text.len() > LONGEST_TEXT {
        return Err("the text is too long".into());
    }
    let mut lexer = Lexer::new(text);
    for _ in 0..64 {
        if !tell_next(alloc, told, &mut lexer)? {
            return Ok(());
        }
    }
    Err("too many tokens".into())
}

// The tokens of a text, and behind them its first fault or its end.
fn told(alloc: Global, text: &str) -> Result<String, Fail> {
    let mut told = String::new(alloc);
    tell_text(alloc, &mut told, text.as_bytes())?;
    Ok(told)
}

// Each row has a text and what it reads as.
fn check_rows(rt: &impl Abort, alloc: Global, rows: &str) -> Result<(), Fail> {
    for row in rows.split('|') {
        let (text, wanted) = row.split_once('>').ok_or("a row out of form")?;
        check_told(rt, text, told(alloc, text)?.as_str(), wanted);
    }
    Ok(())
}

// Words, quoted names and signs. Lines end with a line feed alone, and the carriage return is a blank.
const TOKENS: &str = "\
>end 1:1|\
a>Word 0..1 1:1, end 1:2|\
toplevel T;>Word 0..8 1:1, Word 9..10 1:10, Semicolon 10..11 1:11, end 1:12|\
x=1e-4;>Word 0..1 1:1, Equals 1..2 1:2, Word 2..6 1:3, Semicolon 6..7 1:7, end 1:8|\
a_-.+9>Word 0..6 1:1, end 1:7|\
\"b c\">Quoted 0..5 1:1, end 1:6|\
\"a\"b\"c\">Quoted 0..3 1:1, Word 3..4 1:4, Quoted 4..7 1:5, end 1:8|\
\"/*\";>Quoted 0..4 1:1, Semicolon 4..5 1:5, end 1:6|\
a\r\nb>Word 0..1 1:1, Word 3..4 2:1, end 2:2|\
\n\n  a\t>Word 4..5 3:3, end 3:5|\
\u{b}\u{c}a>Word 2..3 1:3, end 1:4";

// Comments separate tokens, and hold any byte. What opens a comment does not close it.
const COMMENTS: &str = "\
a//b\nc>Word 0..1 1:1, Word 5..6 2:1, end 2:2|\
a//b>Word 0..1 1:1, end 1:5|\
a/*\u{e9}\"*/b>Word 0..1 1:1, Word 8..9 1:9, end 1:10|\
/**/a>Word 4..5 1:5, end 1:6|\
/***/a>Word 5..6 1:6, end 1:7|\
/*\n*/a>Word 5..6 2:3, end 2:4|\
//*\na>Word 4..5 2:1, end 2:2|\
/*//*/a>Word 6..7 1:7, end 1:8|\
/*/>OpenComment 1:1|\
/*/ */a>Word 6..7 1:7, end 1:8|\
a /* x>Word 0..1 1:1, OpenComment 1:3|\
toplevel T; /* x>Word 0..8 1:1, Word 9..10 1:10, Semicolon 10..11 1:11, OpenComment 1:13";

// Bytes that begin no token, and quoted names without an end or a byte.
const FAULTS: &str = "\
a #>Word 0..1 1:1, BadByte 1:3|\
a / b>Word 0..1 1:1, BadByte 1:3|\
/>BadByte 1:1|\
\u{feff}a>BadByte 1:1|\
toplevel \"T>Word 0..8 1:1, OpenQuote 1:10|\
\"a\n\">BadByte 1:3|\
\"a\tb\">BadByte 1:3|\
\"a\u{7f}>BadByte 1:3|\
a\"\">Word 0..1 1:1, EmptyName 1:2|\
\">OpenQuote 1:1";

#[test]
fn texts_read_as_tokens_or_their_first_fault(rt: HostRuntime) -> Result<(), Fail> {
    check_rows(&rt, rt.alloc(), TOKENS)?;
    check_rows(&rt, rt.alloc(), COMMENTS)?;
    check_rows(&rt, rt.alloc(), FAULTS)
}

// What 255 bytes of a name read as, and 256. An open quote and a bad byte come first, whatever the length.
fn check_names(rt: &impl Abort, alloc: Global, name: &str) -> Result<(), Fail> {
    let rows = format!(in alloc;
        "\
{name}>Word 0..255 1:1, end 1:256|\
{name}a>NameTooLong 1:1|\
toplevel {name}a>Word 0..8 1:1, NameTooLong 1:10|\
\"{name}\">Quoted 0..257 1:1, end 1:258|\
\"{name}a\">NameTooLong 1:1|\
\"{name}a>OpenQuote 1:1|\
\"{name}a\n\">BadByte 1:258"
    )?;
    check_rows(rt, alloc, rows.as_str())
}

#[test]
fn names_have_255_bytes_at_most(rt: HostRuntime) -> Result<(), Fail> {
    let name = "a".repeat(rt.alloc(), 255)?;
    check_names(&rt, rt.alloc(), name.as_str())
}
