//! A meeting to which one worker alone comes.
use edge_io::Pace;
use held_pace::{Meeting, Piece};
use std::process::Abort;
use std::test::Fail;

const FIRST: Piece = Piece { group: 0, place: 0 };

const SECOND: Piece = Piece { group: 1, place: 0 };

#[test]
fn pieces_one_after_the_other_are_not_held(rt: HostRuntime) -> Result<(), Fail> {
    let meeting = Meeting::of(FIRST, SECOND);
    assert!(&rt; !meeting.was_held());
    meeting.before(FIRST.group, FIRST.place);
    assert!(&rt; !meeting.was_held());
    meeting.before(SECOND.group, SECOND.place);
    assert!(&rt; !meeting.was_held());
    Ok(())
}
