//! Statements from lexemes. Each function reads a part of a statement, from what the lexeme before has begun.
ghost use Rattle.std.specs.Prelude.{◌≡◌, ◌≤◌, ℕ, List, [], ◌∷◌, ◌++◌, length, true, Ok, IfOk, IfErr, OnOk};
ghost use Rattle.galileo_tree.specs.declared.raw.Placed.{Placed};
ghost use Rattle.galileo_tree.specs.declared.raw.RawAttribute.{RawAttribute};
ghost use Rattle.galileo_tree.specs.declared.raw.Statement.TheVariants.{Basic as BasicRead};
ghost use Rattle.galileo_tree.specs.declared.fault.ParseFault.TheVariants.{NoMemory};
ghost use Rattle.galileo_tree.specs.Lexeme.{is_value};
ghost use Rattle.galileo_tree.specs.Parsed.{Outside, TopWord, Defined, GateWord, AttributeWord};
ghost use Rattle.galileo_tree.specs.Parsed.{AttributeEquals, parsed_text, parsed_from};
ghost use Rattle.galileo_tree.specs.Reads.{Reads, ReadsInputs, with_input, Steps, Values, NextWord, FailsAs, Closes};
ghost use Rattle.galileo_tree.specs.Reads.{before};

use crate::fault::{ParseFault, What};
use crate::lexeme::Lexeme;
use crate::raw::{
    Placed, PlacedList, RawAttribute, RawAttributes, RawBasic, RawGate, RawTop, Statement,
};
use crate::reader::Reader;
use crate::tree::RawTree;
use fault_words::{Attribute, GateKind, Name, Place};
use flat_rows::GrowingList;
use galileo_lexer::LONGEST_TEXT;
use std::alloc::Global;

// Most gates have two inputs, so the first room of a gate with more than one is for these.
const USUAL_INPUTS: usize = 2;

// Most basic events with attributes have a rate of failure alone, or a dormancy factor beside it.
const USUAL_ATTRIBUTES: usize = 2;

/// The statements of a text that is in the grammar, else its first fault.
pub fn parse(alloc: Global, text: &[u8]) -> Result<RawTree, ParseFault>
    requires { length text.now ≤ LONGEST_TEXT }
    ensures read { IfOk result (λ raw. parsed_text text.now ≡ Ok raw) }
    ensures fault { IfErr result (λ fault. FailsAs fault (parsed_text text.now)) }
{
    let mut reader = Reader::new(text);
    let mut statements = GrowingList::new(alloc);
    while let Some(first) = reader.next()? {
        let read = statement(alloc, &mut reader, &first)?;
        statements.push(read)?;
    }
    Ok(RawTree::new(statements, reader.end()))
}

// The statement that begins with this lexeme.
fn statement(alloc: Global, reader: &mut Reader, first: &Lexeme) -> Result<Statement, ParseFault>
    ensures { Reads Outside (before first.now reader.old) result reader.new }
{
    if first.is_top_word() {
        return top(alloc, reader, first.place());
    }
    if !first.is_name() {
        return Err(ParseFault::Expected(What::Statement, first.place()));
    }
    let name = first.placed(alloc)?;
    definition(alloc, reader, name)
}

// The rest of a top statement, behind the word `toplevel`.
fn top(alloc: Global, reader: &mut Reader, word: Place) -> Result<Statement, ParseFault>
    ensures { Reads (TopWord word) reader.old result reader.new }
{
    let lexeme = reader.want(What::Name)?;
    if !lexeme.is_name() {
        return Err(ParseFault::Expected(What::Name, lexeme.place()));
    }
    let close = reader.want(What::Semicolon)?;
    if !close.is_semicolon() {
        return Err(ParseFault::Expected(What::Semicolon, close.place()));
    }
    let name = lexeme.placed(alloc)?;
    Ok(Statement::Top(RawTop { word, name }))
}

// The rest of a gate or a basic event, behind its name.
fn definition(alloc: Global, reader: &mut Reader, name: Placed) -> Result<Statement, ParseFault>
    ensures { Reads (Defined name) reader.old result reader.new }
{
    let lexeme = reader.want(What::GateOrAttribute)?;
    if lexeme.is_semicolon() {
        let attributes = RawAttributes::new(alloc);
        return Ok(Statement::Basic(RawBasic { name, attributes }));
    }
    if let Some(kind) = lexeme.kind_said() {
        return gate(alloc, reader, name, &lexeme, kind);
    }
    if !lexeme.is_bare() {
        return Err(ParseFault::Expected(What::GateOrAttribute, lexeme.place()));
    }
    equals(reader)?;
    values(alloc, reader, name, &lexeme)
}

// The rest of a basic event behind the `=` of its first attribute's word.
fn values(
    alloc: Global,
    reader: &mut Reader,
    name: Placed,
    word: &Lexeme,
) -> Result<Statement, ParseFault>
    requires { is_value word.now ≡ true }
    ensures { Reads (AttributeEquals name [] word.now.text) reader.old result reader.new }
{
    let first = word.name(alloc)?;
    let mut basic = basic_with_room(alloc, name)?;
    match add_attributes(alloc, reader, &mut basic, first) {
        Ok(()) => Ok(Statement::Basic(basic)),
        Err(fault) => {
            drop(basic);
            Err(fault)
        }
    }
}

// A basic event whose attributes are read next.
fn basic_with_room(alloc: Global, name: Placed) -> Result<RawBasic, ParseFault>
    ensures basic { IfOk result (λ basic. basic ≡ record { name = name; attributes = [] }) }
    ensures memory { IfErr result (λ fault. fault ≡ NoMemory) }
{
    Ok(RawBasic {
        name,
        attributes: RawAttributes::with_room(alloc, USUAL_ATTRIBUTES)?,
    })
}

// The rest behind a name and a gate word, which may yet be the word of an attribute.
fn gate(
    alloc: Global,
    reader: &mut Reader,
    name: Placed,
    word: &Lexeme,
    kind: GateKind,
) -> Result<Statement, ParseFault>
    ensures { Reads (GateWord name word.now kind) reader.old result reader.new }
{
    let lexeme = reader.want(What::Input)?;
    if lexeme.is_equals() && word.is_bare() {
        return values(alloc, reader, name, word);
    }
    let mut gate = RawGate {
        name,
        word: word.place(),
        kind,
        inputs: PlacedList::new(alloc),
    };
    match all_inputs(alloc, reader, &mut gate, lexeme) {
        Ok(()) => Ok(Statement::Gate(gate)),
        Err(fault) => {
            drop(gate);
            Err(fault)
        }
    }
}

// The rest of a gate that has no input yet, from this lexeme on.
fn all_inputs<'a>(
    alloc: Global,
    reader: &mut Reader<'a>,
    gate: &mut RawGate,
    first: Lexeme<'a>,
) -> Result<(), ParseFault>
    requires { gate.old.inputs ≡ [] }
    ensures { ReadsInputs gate.old (before first.entry reader.old) result gate.new reader.new }
{
    if first.is_name() {
        add_first_input(alloc, reader, gate, first)
    } else {
        add_inputs(alloc, reader, gate, first)
    }
}

// The rest of a gate behind its first input. A text may have hundreds of thousands of gates with one input: what stands
// behind it says whether it is alone.
fn add_first_input<'a>(
    alloc: Global,
    reader: &mut Reader<'a>,
    gate: &mut RawGate,
    first: Lexeme<'a>,
) -> Result<(), ParseFault>
    requires none { gate.old.inputs ≡ [] }
    requires value { is_value first ≡ true }
    ensures { ReadsInputs (with_input first.entry gate.old) reader.old result gate.new reader.new }
{
    let next = reader.want(What::Input)?;
    let room = if next.is_semicolon() { 1 } else { USUAL_INPUTS };
    gate.inputs = PlacedList::with_room(alloc, room)?;
    first.add_to(alloc, &mut gate.inputs)?;
    add_inputs(alloc, reader, gate, next)
}

// The rest of a gate behind its inputs so far, from this lexeme on.
fn add_inputs<'a>(
    alloc: Global,
    reader: &mut Reader<'a>,
    gate: &mut RawGate,
    first: Lexeme<'a>,
) -> Result<(), ParseFault>
    ensures { ReadsInputs gate.old (before first.entry reader.old) result gate.new reader.new }
{
    let mut lexeme = first;
    while !lexeme.is_semicolon() {
        if !lexeme.is_name() {
            return Err(ParseFault::Expected(What::Input, lexeme.place()));
        }
        lexeme.add_to(alloc, &mut gate.inputs)?;
        lexeme = reader.want(What::Input)?;
    }
    Ok(())
}

// The rest of a basic event behind the `=` of this attribute word.
fn add_attributes(
    alloc: Global,
    reader: &mut Reader,
    basic: &mut RawBasic,
    first: Name,
) -> Result<(), ParseFault>
    ensures read { OnOk result (Closes (AttributeEquals basic.old.name basic.old.attributes first) reader.old
        (BasicRead basic.new) reader.new) }
    ensures fault { IfErr result (λ fault. FailsAs fault
        (parsed_from (AttributeEquals basic.old.name basic.old.attributes first) reader.old)) }
{
    let mut word = first;
    loop {
        let read = attribute(alloc, reader, word)?;
        basic.attributes.push(read)?;
        word = match next_word(alloc, reader)? {
            Some(next) => next,
            None => return Ok(()),
        };
    }
}

// The attribute of this word, whose value is read.
fn attribute(alloc: Global, reader: &mut Reader, word: Name) -> Result<RawAttribute, ParseFault>
    ensures { (name : Placed) (attributes : List RawAttribute)
        → Values name attributes word reader.old result reader.new }
{
    let lexeme = reader.want(What::Value)?;
    if !lexeme.is_value() {
        return Err(ParseFault::Expected(What::Value, lexeme.place()));
    }
    let value = lexeme.name(alloc)?;
    Ok(RawAttribute {
        attribute: Attribute { word, value },
        value_place: lexeme.place(),
    })
}

// Behind a value: the word of the next attribute, with its `=` read, or None behind the `;`.
fn next_word(alloc: Global, reader: &mut Reader) -> Result<Option<Name>, ParseFault>
    ensures { (name : Placed) (attributes : List RawAttribute)
        → NextWord name attributes reader.old result reader.new }
{
    let lexeme = reader.want(What::Attribute)?;
    if lexeme.is_semicolon() {
        return Ok(None);
    }
    if !lexeme.is_bare() {
        return Err(ParseFault::Expected(What::Attribute, lexeme.place()));
    }
    equals(reader)?;
    let word = lexeme.name(alloc)?;
    Ok(Some(word))
}

// The `=` behind the word of an attribute.
fn equals(reader: &mut Reader) -> Result<(), ParseFault>
    ensures { (name : Placed) (attributes : List RawAttribute) (word : List ℕ) →
        Steps (AttributeWord name attributes word) reader.old (AttributeEquals name attributes word) result reader.new }
{
    let lexeme = reader.want(What::Equals)?;
    if !lexeme.is_equals() {
        return Err(ParseFault::Expected(What::Equals, lexeme.place()));
    }
    Ok(())
}
