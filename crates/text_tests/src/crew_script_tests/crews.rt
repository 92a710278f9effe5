//! What crew parts say, and their first faults.
use crate::rows::check_told;
use crew_script::{Ask, CrewCode, CrewFault, Dockets, LONGEST_DECK, read_crews};
use fault_words::{Name, Place};
use std::alloc::Global;
use std::process::Abort;
use std::test::Fail;
use unit_sets::CrewNo;

fn tell_name(told: &mut String, name: &Name) -> Result<(), Fail> {
    told.push(' ')?;
    for byte in name.as_slice() {
        told.push(char::from(*byte))?;
    }
    Ok(())
}

fn tell_ask(alloc: Global, told: &mut String, ask: &Ask) -> Result<(), Fail> {
    match ask {
        Ask::Take(names) => {
            told.push_str(" take")?;
            for name in names.as_slice() {
                tell_name(told, name)?;
            }
        }
        Ask::Return(name) => {
            told.push_str(" return")?;
            tell_name(told, name)?;
        }
        Ask::Margin(number) => told.push_str(format!(in alloc; " margin {number}")?.as_str())?,
    }
    Ok(())
}

// A crew as its name and a colon, each request as its word and its names or its number.
fn tell_crew(
    alloc: Global,
    told: &mut String,
    dockets: &Dockets,
    crew: CrewNo,
) -> Result<(), Fail> {
    if crew.0 >= dockets.crews() {
        return Err("no such crew".into());
    }
    tell_name(told, dockets.crew_name(crew))?;
    told.push(':')?;
    for place in 0..dockets.len(crew) {
        tell_ask(alloc, told, dockets.ask(crew, place))?;
    }
    told.push(';')?;
    Ok(())
}

fn told(alloc: Global, dockets: &Dockets) -> Result<String, Fail> {
    let mut told = String::new(alloc);
    for number in 0..dockets.crews() {
        tell_crew(alloc, &mut told, dockets, CrewNo(number))?;
    }
    Ok(told)
}

fn told_copy(alloc: Global, dockets: &Dockets) -> Result<String, Fail> {
    let copy = dockets.copied(alloc)?;
    told(alloc, &copy)
}

// What crews ask, which a copy of them says too.
fn told_twice(alloc: Global, dockets: &Dockets) -> Result<String, Fail> {
    let text = told(alloc, dockets)?;
    let copy = told_copy(alloc, dockets)?;
    if copy.as_str() != text.as_str() {
        return Err("a copy says something else".into());
    }
    Ok(text)
}

fn told_counts(alloc: Global, dockets: &Dockets) -> Result<String, Fail> {
    let crews = dockets.crews();
    let total = dockets.total();
    Ok(format!(in alloc; "{crews} crews, {total} requests")?)
}

fn code_name(code: CrewCode) -> &'static str {
    match code {
        CrewCode::NoCrewPart => "NoCrewPart",
        CrewCode::BadLine => "BadLine",
        CrewCode::DuplicateCrew => "DuplicateCrew",
        CrewCode::RequestBeforeCrew => "RequestBeforeCrew",
        CrewCode::TooManyCrews => "TooManyCrews",
        CrewCode::TooManyRequests => "TooManyRequests",
    }
}

// The fault with its line and column.
fn told_fault(alloc: Global, fault: CrewFault) -> Result<String, Fail> {
    match fault {
        CrewFault::Fault(code, Place { line, column }) => {
            let code = code_name(code);
            Ok(format!(in alloc; "{code} at {line}:{column}")?)
        }
        CrewFault::NoMemory => Err("no memory".into()),
    }
}

// What a crew part says whose first line has number 3, or how many crews and requests it has, or its fault.
fn told_text(alloc: Global, text: &str, in_full: bool) -> Result<String, Fail> {
    if text.len() > LONGEST_DECK {
        return Err("the crew part is too long".into());
    }
    match read_crews(alloc, text.as_bytes(), 3) {
        Ok(dockets) if in_full => told_twice(alloc, &dockets),
        Ok(dockets) => told_counts(alloc, &dockets),
        Err(fault) => told_fault(alloc, fault),
    }
}

// The same of a front and one more line behind it, in full where the front is empty.
fn told_behind(alloc: Global, front: &str, line: &str) -> Result<String, Fail> {
    let text = format!(in alloc; "{front}{line}")?;
    told_text(alloc, text.as_str(), front.is_empty())
}

// Each row has what stands behind the front, and what is told of it.
fn check_rows<R: Abort>(rt: &R, alloc: Global, front: &str, rows: &str) -> Result<(), Fail> {
    for row in rows.split('|') {
        let (text, wanted) = row.split_once('>').ok_or("a row out of form")?;
        check_told(rt, text, told_behind(alloc, front, text)?.as_str(), wanted);
    }
    Ok(())
}

// Crew parts, and what they say.
const SAYING: &str = "\
>|\
\n>|\
\x20\t\r\n\x0b\x0c\n>|\
# crew c\n  # take\n\t#\"\n#>|\
crew c> c:;|\
crew c\n> c:;|\
crew c\r\ncrew d\r> c:; d:;|\
\x20\t crew\x0b\x0cc \t\r> c:;|\
CREW c\nTake A\nRETURN A\nmArGiN 7> c: take A return A margin 7;|\
crew crew\ntake take crew\nreturn return> crew: take take crew return return;|\
crew c\ntake A\n\n# so\ncrew d\ntake B\ncrew e\ncrew f\ntake \"C\"> c: take A; d: take B; e:; f: take C;|\
crew \"b c\"\ntake \" \" \"#\" \"1\" _.-9> b c: take   # 1 _.-9;|\
crew c\ntake A a \"take\" take_> c: take A a take take_;|\
crew c\nmargin 0\nmargin 9\nmargin 4095\nmargin 10> c: margin 0 margin 9 margin 4095 margin 10;|\
crew c\ntake a b c d e f g h i j k l m n o p> c: take a b c d e f g h i j k l m n o p;|\
crew supervisor\ntake A C\nmargin 1\nreturn A\nmargin 1\nreturn C\nmargin 1\ntake A\n\
margin 0\ntake A B\ntake C A\ntake B Z\ntake B A\n> supervisor: take A C margin 1 return A margin 1 \
return C margin 1 take A margin 0 take A B take C A take B Z take B A;";

// Lines of no form.
const OF_NO_FORM: &str = "\
x>BadLine at 3:1|\
\n\n x>BadLine at 5:1|\
crew c\ntake>BadLine at 4:1|\
crew c\ntake A A>BadLine at 4:1|\
crew c\ntake A \"A\">BadLine at 4:1|\
crew c\ntake a b c d e f g h i j k l m n o p q>BadLine at 4:1|\
crew>BadLine at 3:1|\
crew c d>BadLine at 3:1|\
crew 1>BadLine at 3:1|\
crew a+b>BadLine at 3:1|\
crew \"\">BadLine at 3:1|\
crew \"a>BadLine at 3:1|\
crew \"a\"\"b\">BadLine at 3:1|\
crew \"a\"# x>BadLine at 3:1|\
crew c # x>BadLine at 3:1|\
crew c;>BadLine at 3:1|\
\"crew\" c>BadLine at 3:1|\
crew\"c\">BadLine at 3:1|\
crew c\n take\"A\">BadLine at 4:1|\
crew \"a\tb\">BadLine at 3:1|\
crew c\nreturn>BadLine at 4:1|\
crew c\nreturn A B>BadLine at 4:1|\
crew c\nmargin>BadLine at 4:1|\
crew c\nmargin 07>BadLine at 4:1|\
crew c\nmargin 00>BadLine at 4:1|\
crew c\nmargin 4096>BadLine at 4:1|\
crew c\nmargin 10000>BadLine at 4:1|\
crew c\nmargin \"1\">BadLine at 4:1|\
crew c\nmargin +1>BadLine at 4:1|\
crew c\nmargin 1 2>BadLine at 4:1|\
crew c\n@crews\ncrew d>BadLine at 4:1|\
crew c\ncrewc\ncrew c>BadLine at 4:1|\
take\ncrew c>BadLine at 3:1|\
x\n\n\ny>BadLine at 3:1";

// Faults of later lines stand behind those of earlier ones.
const IN_TURN: &str = "\
crew c\ncrew c>DuplicateCrew at 4:1|\
crew c\n\ncrew d\ntake A\n crew \"c\"\nx>DuplicateCrew at 7:1|\
take A\nx>RequestBeforeCrew at 3:1|\
#\n\nreturn A\ncrew c>RequestBeforeCrew at 5:1|\
\nmargin 1>RequestBeforeCrew at 4:1";

#[test]
fn crew_parts_have_their_crews_or_a_first_fault(rt: HostRuntime) -> Result<(), Fail> {
    check_rows(&rt, rt.alloc(), "", SAYING)?;
    check_rows(&rt, rt.alloc(), "", OF_NO_FORM)?;
    check_rows(&rt, rt.alloc(), "", IN_TURN)
}

// As many crews as a deck may have.
fn most_crews(alloc: Global) -> Result<String, Fail> {
    let mut text = String::new(alloc);
    for number in 0..64u32 {
        text.push_str(format!(in alloc; "crew c{number}\n")?.as_str())?;
    }
    Ok(text)
}

// One more line behind them.
const MORE_CREWS: &str = "\
# no more>64 crews, 0 requests|\
crew c64>TooManyCrews at 67:1|\
crew c63>DuplicateCrew at 67:1|\
crew c63 c64>BadLine at 67:1";

#[test]
fn a_deck_has_64_crews(rt: HostRuntime) -> Result<(), Fail> {
    let most = most_crews(rt.alloc())?;
    check_rows(&rt, rt.alloc(), most.as_str(), MORE_CREWS)
}

// As many requests as a deck may have.
fn most_requests(alloc: Global) -> Result<String, Fail> {
    let takes = "take A\n".repeat(alloc, 50_000)?;
    let margins = "margin 1\n".repeat(alloc, 50_000)?;
    Ok(format!(in alloc; "crew c\n{takes}crew d\n{margins}")?)
}

// One more line behind them.
const MORE_REQUESTS: &str = "\
crew e>3 crews, 100000 requests|\
return A>TooManyRequests at 100005:1";

#[test]
fn a_deck_has_100000_requests(rt: HostRuntime) -> Result<(), Fail> {
    let most = most_requests(rt.alloc())?;
    check_rows(&rt, rt.alloc(), most.as_str(), MORE_REQUESTS)
}
