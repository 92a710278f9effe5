//! The log of a board.
ghost use Rattle.std.specs.Prelude.{◌≡◌, ◌<◌, is_err, length, false, All, ◌++◌, codes};
ghost use Rattle.std.specs.List.{flat_map};
ghost use Rattle.edge_io.specs.Out.{has_failed, Puts};
ghost use Rattle.margin_policy.specs.Holders.{NamesCrewBelow};
ghost use Rattle.text_pieces.specs.Shown.{named};
ghost use Rattle.board_report.specs.LogText.{ask_text, crew_shown, entry_line, entry_lines, log_text, reply_text};
ghost use Rattle.board_report.specs.Logged.{IsLogged};

use crate::counted::put_counted;
use crew_script::{Ask, Dockets};
use edge_io::{Out, Sink, WriteFault};
use fault_model::Name;
use itoa::Buffer;
use margin_policy::Reply;
use outage_board::Entry;
use text_pieces::{put_named, put_shown};
use unit_sets::CrewNo;

// Puts the log of these entries of the crews.
pub(crate) fn put_log<K: Sink>(
    out: &mut Out<K>,
    dockets: &Dockets,
    history: &[Entry],
) -> Result<(), WriteFault>
    requires logged { All (IsLogged dockets.now) history.now }
    ensures puts { Puts K.taken K.faults out.old out.new (log_text dockets.now history.now) }
    ensures answer { is_err result ≡ has_failed out.new }
{
    put_counted(out, b"log: ", history.len() as u64, b"\n")?;
    put_entries(out, dockets, history)
}

fn put_entries<K: Sink>(
    out: &mut Out<K>,
    dockets: &Dockets,
    history: &[Entry],
) -> Result<(), WriteFault>
    requires logged { All (IsLogged dockets.now) history.now }
    requires fine { has_failed out.old ≡ false }
    ensures puts { Puts K.taken K.faults out.old out.new (entry_lines dockets.now 1 history.now) }
    ensures answer { is_err result ≡ has_failed out.new }
{
    for i in 0..history.len() {
        put_entry(out, dockets, i as u64 + 1, &history[i])?;
    }
    Ok(())
}

fn put_entry<K: Sink>(
    out: &mut Out<K>,
    dockets: &Dockets,
    number: u64,
    entry: &Entry,
) -> Result<(), WriteFault>
    requires { IsLogged dockets.now entry.now }
    ensures puts { Puts K.taken K.faults out.old out.new (entry_line dockets.now number entry.now) }
    ensures answer { is_err result ≡ has_failed out.new }
{
    // A write that failed fails again at the end of the line.
    let _ = out.put(Buffer::new().format(number).as_bytes());
    let _ = put_named(out, dockets.crew_name(entry.crew));
    put_ask(out, dockets.ask(entry.crew, entry.place));
    let _ = out.put(b": ");
    let _ = put_reply(out, dockets, entry.reply);
    out.put(b"\n")
}

// Puts what is asked. Whether a write failed is told at the end of the line.
fn put_ask<K: Sink>(out: &mut Out<K>, ask: &Ask)
    ensures { Puts K.taken K.faults out.old out.new (ask_text ask.now) }
{
    match ask {
        Ask::Take(names) => put_take(out, names.as_slice()),
        Ask::Return(name) => {
            let _ = out.put(b" return");
            let _ = put_named(out, name);
        }
        Ask::Margin(number) => {
            let _ = put_counted(out, b" margin ", *number as u64, b"");
        }
    }
}

fn put_take<K: Sink>(out: &mut Out<K>, names: &[Name])
    ensures { Puts K.taken K.faults out.old out.new (codes " take" ++ flat_map named names.now) }
{
    let _ = out.put(b" take");
    for name in names {
        let _ = put_named(out, name);
    }
}

// Puts a reply. Whether a write failed is told at the end of the line.
fn put_reply<K: Sink>(out: &mut Out<K>, dockets: &Dockets, reply: Reply) -> Result<(), WriteFault>
    requires { NamesCrewBelow (length dockets.now) reply }
    ensures { Puts K.taken K.faults out.old out.new (reply_text dockets.now reply) }
{
    match reply {
        Reply::Granted => out.put(b"granted"),
        Reply::Denied(number) => put_counted(out, b"denied, cut ", number as u64, b""),
        Reply::UnknownUnit => out.put(b"E1 unknown unit"),
        Reply::AlreadyOut(holder) => put_with_crew(out, b"E2 already out with ", dockets, holder),
        Reply::NotOut => out.put(b"E3 not out"),
        Reply::HeldBy(holder) => put_with_crew(out, b"E4 held by ", dockets, holder),
        Reply::NotSupervisor => out.put(b"E5 not supervisor"),
    }
}

// Puts a text and the name of a crew, in the same way.
pub(crate) fn put_with_crew<K: Sink>(
    out: &mut Out<K>,
    text: &[u8],
    dockets: &Dockets,
    crew: CrewNo,
) -> Result<(), WriteFault>
    requires { crew.0 < length dockets.now }
    ensures { Puts K.taken K.faults out.old out.new (text.now ++ crew_shown dockets.now crew) }
{
    let _ = out.put(text);
    put_shown(out, dockets.crew_name(crew))
}
