//! The line of an entry at the front of a text.
ghost use Rattle.std.specs.Prelude.{◌≡◌, ◌<◌, ◌++◌, codes, length};
ghost use Rattle.std.specs.List.{flat_map};
ghost use Rattle.margin_policy.specs.Holders.{NamesCrewBelow};
ghost use Rattle.text_pieces.specs.Shown.{named, show};
ghost use Rattle.board_report.specs.LogText.{ask_text, crew_shown, entry_line, reply_text};
ghost use Rattle.board_report.specs.Logged.{IsLogged};
ghost use Rattle.board_audit.specs.Pieces.{behind, lent, past};

use crate::part::{Part, pass_number};
use crew_script::{Ask, Dockets};
use fault_model::Name;
use margin_policy::Reply;
use outage_board::Entry;
use unit_sets::CrewNo;

/// What follows the line of an entry with this number, where the text begins with it.
pub(crate) fn behind_line<'a>(
    dockets: &Dockets,
    number: u64,
    entry: &Entry,
    text: &'a [u8],
) -> Option<&'a [u8]>
    requires { IsLogged dockets.now entry.now }
    ensures { lent result ≡ behind (entry_line dockets.now number entry.now) text.now }
{
    let mut part = Part::new(text);
    pass_line(&mut part, dockets, number, entry);
    part.rest()
}

fn pass_line(part: &mut Part<'_>, dockets: &Dockets, number: u64, entry: &Entry)
    requires { IsLogged dockets.now entry.now }
    ensures { part.new ≡ past (entry_line dockets.now number entry.now) part.old }
{
    pass_number(part, number);
    pass_named(part, dockets.crew_name(entry.crew));
    pass_ask(part, dockets.ask(entry.crew, entry.place));
    part.pass(b": ");
    pass_reply(part, dockets, entry.reply);
    part.pass(b"\n");
}

// A name as texts show it.
fn pass_shown(part: &mut Part<'_>, name: &Name)
    ensures { part.new ≡ past (show name.now) part.old }
{
    if name.is_bare() {
        part.pass(name.as_slice());
    } else {
        part.pass(b"\"");
        part.pass(name.as_slice());
        part.pass(b"\"");
    }
}

// A name behind a blank.
fn pass_named(part: &mut Part<'_>, name: &Name)
    ensures { part.new ≡ past (named name.now) part.old }
{
    part.pass(b" ");
    pass_shown(part, name);
}

// What is asked.
fn pass_ask(part: &mut Part<'_>, ask: &Ask)
    ensures { part.new ≡ past (ask_text ask.now) part.old }
{
    match ask {
        Ask::Take(names) => pass_take(part, names.as_slice()),
        Ask::Return(name) => {
            part.pass(b" return");
            pass_named(part, name);
        }
        Ask::Margin(number) => {
            part.pass(b" margin ");
            pass_number(part, *number as u64);
        }
    }
}

fn pass_take(part: &mut Part<'_>, names: &[Name])
    ensures { part.new ≡ past (codes " take" ++ flat_map named names.now) part.old }
{
    part.pass(b" take");
    for name in names {
        pass_named(part, name);
    }
}

fn pass_reply(part: &mut Part<'_>, dockets: &Dockets, reply: Reply)
    requires { NamesCrewBelow (length dockets.now) reply }
    ensures { part.new ≡ past (reply_text dockets.now reply) part.old }
{
    match reply {
        Reply::Granted => part.pass(b"granted"),
        Reply::Denied(number) => {
            part.pass(b"denied, cut ");
            pass_number(part, number as u64);
        }
        Reply::UnknownUnit => part.pass(b"E1 unknown unit"),
        Reply::AlreadyOut(holder) => pass_with_crew(part, b"E2 already out with ", dockets, holder),
        Reply::NotOut => part.pass(b"E3 not out"),
        Reply::HeldBy(holder) => pass_with_crew(part, b"E4 held by ", dockets, holder),
        Reply::NotSupervisor => part.pass(b"E5 not supervisor"),
    }
}

// A text and the name of a crew.
fn pass_with_crew(part: &mut Part<'_>, text: &[u8], dockets: &Dockets, crew: CrewNo)
    requires { crew.0 < length dockets.now }
    ensures { part.new ≡ past (text.now ++ crew_shown dockets.now crew) part.old }
{
    part.pass(text);
    pass_shown(part, dockets.crew_name(crew));
}
