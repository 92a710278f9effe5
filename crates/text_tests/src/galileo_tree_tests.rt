//! The traps of the grammar, each row of what is expected, and each fault of the tokens once, as texts with what they
//! read as.
use crate::rows::check_told;
use fault_words::{Name, Place};
use galileo_lexer::{LONGEST_TEXT, LexPlace};
use galileo_tree::{ParseFault, RawAttribute, RawBasic, RawGate, RawTree, Statement, parse};
use std::alloc::Global;
use std::process::Abort;
use std::test::Fail;

fn text_of(name: &Name) -> Result<&str, Fail> {
    match str::from_utf8(name.as_slice()) {
        Ok(text) => Ok(text),
        Err(_) => Err("a name is no text".into()),
    }
}

// `@LINE:COLUMN`
fn tell_place(alloc: Global, told: &mut String, place: Place) -> Result<(), Fail> {
    let Place { line, column } = place;
    told.push_str(format!(in alloc; "@{line}:{column}")?.as_str())?;
    Ok(())
}

// ` NAME@LINE:COLUMN`
fn tell_name(alloc: Global, told: &mut String, name: &Name, place: Place) -> Result<(), Fail> {
    told.push(' ')?;
    told.push_str(text_of(name)?)?;
    tell_place(alloc, told, place)
}

// ` WORD=VALUE@LINE:COLUMN`
fn tell_attribute(alloc: Global, told: &mut String, raw: &RawAttribute) -> Result<(), Fail> {
    told.push(' ')?;
    told.push_str(text_of(&raw.attribute.word)?)?;
    told.push('=')?;
    told.push_str(text_of(&raw.attribute.value)?)?;
    tell_place(alloc, told, raw.value_place)
}

fn tell_gate(alloc: Global, told: &mut String, gate: &RawGate) -> Result<(), Fail> {
    told.push_str("gate")?;
    tell_name(alloc, told, &gate.name.name, gate.name.place)?;
    let kind = gate.kind;
    told.push_str(format!(in alloc; " {kind:?}")?.as_str())?;
    tell_place(alloc, told, gate.word)?;
    for input in gate.inputs.as_slice() {
        tell_name(alloc, told, &input.name, input.place)?;
    }
    Ok(())
}

fn tell_basic(alloc: Global, told: &mut String, basic: &RawBasic) -> Result<(), Fail> {
    told.push_str("basic")?;
    tell_name(alloc, told, &basic.name.name, basic.name.place)?;
    for raw in basic.attributes.as_slice() {
        tell_attribute(alloc, told, raw)?;
    }
    Ok(())
}

fn tell_statement(alloc: Global, told: &mut String, statement: &Statement) -> Result<(), Fail> {
    match statement {
        Statement::Top(top) => {
            told.push_str("top")?;
            tell_place(alloc, told, top.word)?;
            tell_name(alloc, told, &top.name.name, top.name.place)?;
        }
        Statement::Gate(gate) => tell_gate(alloc, told, gate)?,
        Statement::Basic(basic) => tell_basic(alloc, told, basic)?,
    }
    told.push_str("; ")?;
    Ok(())
}

// The statements and the end of the text.
fn tell_tree(alloc: Global, told: &mut String, tree: &RawTree) -> Result<(), Fail> {
    for i in 0..tree.len() {
        tell_statement(alloc, told, tree.statement(i))?;
    }
    told.push_str("end")?;
    tell_place(alloc, told, tree.end())
}

fn tell_fault(alloc: Global, told: &mut String, fault: ParseFault) -> Result<(), Fail> {
    match fault {
        ParseFault::Lex(fault) => {
            let code = fault.code;
            let LexPlace { line, column } = fault.place;
            told.push_str(format!(in alloc; "{code:?}@{line}:{column}")?.as_str())?;
        }
        ParseFault::Expected(wanted, place) => {
            told.push_str(format!(in alloc; "expected {wanted:?}")?.as_str())?;
            tell_place(alloc, told, place)?;
        }
        ParseFault::NoMemory => return Err("no memory".into()),
    }
    Ok(())
}

fn tell_text(alloc: Global, told: &mut String, text: &str) -> Result<(), Fail> {
    if text.len() > LONGEST_TEXT {
        return Err("the text is too long".into());
    }
    match parse(alloc, text.as_bytes()) {
        Ok(tree) => tell_tree(alloc, told, &tree),
        Err(fault) => tell_fault(alloc, told, fault),
    }
}

// What a text reads as, or its fault.
fn told(alloc: Global, text: &str) -> Result<String, Fail> {
    let mut told = String::new(alloc);
    tell_text(alloc, &mut told, text)?;
    Ok(told)
}

// Statements, each with its places.
const STATEMENTS: &str = "\
>end@1:1|\
toplevel T;>top@1:1 T@1:10; end@1:12|\
A;>basic A@1:1; end@1:3|\
T and A B;>gate T@1:1 And@1:3 A@1:7 B@1:9; end@1:11|\
A x=1 y = \"q r\";>basic A@1:1 x=1@1:5 y=q r@1:11; end@1:17|\
A x=1 x=2;>basic A@1:1 x=1@1:5 x=2@1:9; end@1:11|\
A x=+1;>basic A@1:1 x=+1@1:5; end@1:8";

// Gate words in any case, and numbers with leading zeros. A word with ten digits, or with something else around `of`,
// is no gate word. A gate word of letters in front of `=` is an attribute word. Only the first word of a statement is
// special.
const WORDS: &str = "\
TopLevel t; t AND a;>top@1:1 t@1:10; gate t@1:13 And@1:15 a@1:19; end@1:21|\
T or; T pand; T por;>gate T@1:1 Or@1:3; gate T@1:7 Pand@1:9; gate T@1:15 Por@1:17; end@1:21|\
T seq; T fdep; T Csp;>gate T@1:1 Seq@1:3; gate T@1:8 Fdep@1:10; gate T@1:16 Csp@1:18; end@1:22|\
T wsp; T hsp;>gate T@1:1 Wsp@1:3; gate T@1:8 Hsp@1:10; end@1:14|\
T 2OF3 A;>gate T@1:1 Votes(2, 3)@1:3 A@1:8; end@1:10|\
T 02of000000003;>gate T@1:1 Votes(2, 3)@1:3; end@1:17|\
T 0of999999999;>gate T@1:1 Votes(0, 999999999)@1:3; end@1:16|\
T 1234567890of2 A;>expected GateOrAttribute@1:3|\
T 2of1234567890 A;>expected GateOrAttribute@1:3|\
T 2of A;>expected GateOrAttribute@1:3|\
T 2of3x A;>expected GateOrAttribute@1:3|\
T of3=1;>basic T@1:1 of3=1@1:7; end@1:9|\
\"Fdep\" and=1;>basic Fdep@1:1 and=1@1:12; end@1:14|\
toplevel T; T por;>top@1:1 T@1:10; gate T@1:13 Por@1:15; end@1:19|\
toplevel A; A por=1;>top@1:1 A@1:10; basic A@1:13 por=1@1:19; end@1:21|\
A x=1 and=2;>basic A@1:1 x=1@1:5 and=2@1:11; end@1:13|\
toplevel toplevel;>top@1:1 toplevel@1:10; end@1:19|\
\"toplevel\" or toplevel;>gate toplevel@1:1 Or@1:12 toplevel@1:15; end@1:24|\
and and and;>gate and@1:1 And@1:5 and@1:9; end@1:13";

// Names that are no names, and what is expected, row by row, at a token and at the end.
const EXPECTED: &str = "\
a+b;>expected Statement@1:1|\
1a;>expected Statement@1:1|\
-a;>expected Statement@1:1|\
=>expected Statement@1:1|\
A; ;>expected Statement@1:4|\
toplevel>expected Name@1:9|\
toplevel ;>expected Name@1:10|\
toplevel T>expected Semicolon@1:11|\
toplevel T U;>expected Semicolon@1:12|\
toplevel T; T>expected GateOrAttribute@1:14|\
T \"and\";>expected GateOrAttribute@1:3|\
T x>expected Equals@1:4|\
T x y=1;>expected Equals@1:5|\
T and>expected Input@1:6|\
T 2of3 =>expected Input@1:8|\
T and A>expected Input@1:8|\
T and A =1;>expected Input@1:9|\
T and A B=1;>expected Input@1:10|\
T and 1a;>expected Input@1:7|\
A x=>expected Value@1:5|\
A x==>expected Value@1:5|\
A x=1>expected Attribute@1:6|\
A x=1 2of2>expected Attribute@1:7|\
A x=1 \"y\"=2;>expected Attribute@1:7|\
A x=1 y>expected Equals@1:8|\
A x=1 and B>expected Equals@1:11";

// The first fault is by token: a token's own fault stands before what the grammar expects there.
const TOKENS: &str = "\
A #>BadByte@1:3|\
A = #>expected GateOrAttribute@1:3|\
toplevel \"T>OpenQuote@1:10|\
toplevel T; /* x>OpenComment@1:13|\
toplevel T /* x>OpenComment@1:12|\
toplevel \"\";>EmptyName@1:10|\
\u{feff}toplevel T;>BadByte@1:1|\
toplevel T;\n  /* A\n */ A # ;>BadByte@3:7";

// Each row has a text and what it reads as.
fn check_rows<R: Abort>(rt: &R, alloc: Global, rows: &str) -> Result<(), Fail> {
    for row in rows.split('|') {
        let (text, wanted) = row.split_once('>').ok_or("a row out of form")?;
        check_told(rt, text, told(alloc, text)?.as_str(), wanted);
    }
    Ok(())
}

#[test]
fn texts_read_as_statements_or_their_first_fault(rt: HostRuntime) -> Result<(), Fail> {
    check_rows(&rt, rt.alloc(), STATEMENTS)?;
    check_rows(&rt, rt.alloc(), WORDS)?;
    check_rows(&rt, rt.alloc(), EXPECTED)?;
    check_rows(&rt, rt.alloc(), TOKENS)
}

#[test]
fn a_name_of_256_bytes_is_too_long(rt: HostRuntime) -> Result<(), Fail> {
    let text = format!(in rt.alloc(); "toplevel {:a<256};", "")?;
    assert_eq!(rt;
        told(rt.alloc(), text.as_str())?.as_str(),
        "NameTooLong@1:10"
    );
    Ok(())
}

// A deck, and at each place what is expected where the text ends in front of it: nothing at a point, and else what
// begins with this letter.
const DECK: &str = "toplevel T; T and A B; A; B;";

const NEXT: &str = ".GGGGGGGNNS..GGEEIIIII..G..G.";

// What is expected that begins with a letter.
fn expected(letter: u8) -> &'static str {
    match letter {
        b'E' => "expected Equals@1:",
        b'G' => "expected GateOrAttribute@1:",
        b'I' => "expected Input@1:",
        b'N' => "expected Name@1:",
        b'S' => "expected Semicolon@1:",
        _ => "",
    }
}

// Whether it is told that this is expected at a column.
fn is_expected(told: &str, word: &str, column: usize) -> bool {
    match told.strip_prefix(word) {
        Some(rest) => !word.is_empty() && rest.parse::<usize>().ok() == Some(column),
        None => false,
    }
}

// Whether the first bytes of the deck read as statements at a point, or at a letter it is told what is expected at
// their end.
fn reads(alloc: Global, size: usize, letter: u8) -> Result<bool, Fail> {
    let text = DECK.get(..size).ok_or("longer than the deck")?;
    let told = told(alloc, text)?;
    if letter == b'.' {
        return Ok(!told.as_str().starts_with("expected"));
    }
    Ok(is_expected(told.as_str(), expected(letter), size + 1))
}

#[test]
fn the_beginnings_of_a_deck_read_in_turn(rt: HostRuntime) -> Result<(), Fail> {
    assert_eq!(rt; NEXT.len(), DECK.len() + 1);
    for (size, letter) in NEXT.as_bytes().iter().enumerate() {
        assert!(rt; reads(rt.alloc(), size, *letter)?, "at {size}");
    }
    Ok(())
}
