//! Two gates of one rank, each held until the other was begun.
use crate::trees::{Team, cut_count};
use held_pace::{Meeting, Piece};
use std::process::Abort;
use std::test::Fail;

#[test]
fn two_gates_of_a_rank_are_made_at_once(rt: HostRuntime) -> Result<(), Fail> {
    let meeting = Meeting::of(Piece { group: 1, place: 0 }, Piece { group: 1, place: 1 });
    let text = b"toplevel T; T or G H; G and A B; H and C D; A; B; C; D;".as_slice();
    let team = Team {
        workers: 2,
        own_nodes: 262_144,
    };
    assert_eq!(&rt; cut_count(&rt, rt.alloc(), text, team, &meeting)?, 2);
    assert!(&rt; meeting.was_held());
    Ok(())
}
