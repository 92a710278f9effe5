//! Votes over a list of families.
ghost use Rattle.std.specs.Prelude.{◌≡◌, ◌+◌, ◌<◌, ◌≤◌, ℕ, true, ◌==◌, List, if◌then◌else◌, All, IfErr, IfOk};
ghost use Rattle.std.specs.Prelude.{MatchResult, length, slice_index};
ghost use Rattle.zdd_families.specs.Least.{IsLeastVotes};
ghost use Rattle.family_memory.specs.Memory.{Gave, Has, RanOut, Went, family_in};
ghost use Rattle.minimal_operations.specs.Operands.{Answers};
ghost use Rattle.many_families.specs.Lists.{AreVoters, IsBetween, IsVoting, HaveVoted, VotesAt, VotesNext, families};
ghost use Rattle.many_families.specs.Joins.{CanJoin, IsBelow, IsJoined};

use crate::order::put_in_order;
use crate::splitting::product_by_splitting;
use family_memory::{FamilyMemory, Spent};
use minimal_operations::{branch_node, product_below, union};
use zdd_words::NodeRef;

// Above the number of each unit.
const NO_UNIT: u16 = 4_096;

/// The minimal sets of so many votes over the list: the unions of sets chosen one each from that many of its
/// families. What the table, with a place for each family, holds afterwards is left open.
pub fn votes_of_all(
    memory: &mut FamilyMemory,
    votes: usize,
    list: &[NodeRef],
    table: &mut [NodeRef],
) -> Result<NodeRef, Spent>
    requires table { length list.now ≤ length table.old }
    requires has { All (Has memory.old) list.now }
    ensures gives { IfOk result (Gave (IsLeastVotes votes (families memory.old list.now)) memory.old memory.new) }
    ensures spent { IfErr result (λ _. RanOut memory.old memory.new) }
{
    memory.is_sound();
    if votes == 0 {
        return Ok(NodeRef::UNIT);
    }
    if list.len() < votes {
        return Ok(NodeRef::EMPTY);
    }
    let members = &mut table[..list.len()];
    put_in_order(memory, list, members);
    vote_in_order(memory, votes, members)
}

// Each member votes, the last first. The votes stand in the places of those that have voted.
fn vote_in_order(
    memory: &mut FamilyMemory,
    votes: usize,
    members: &mut [NodeRef],
) -> Result<NodeRef, Spent>
    ghost fs: { List (List (List ℕ)) }
    requires { AreVoters memory.old fs votes members.old }
    ensures { Answers (IsLeastVotes votes fs) memory.old memory.new result }
{
    let mut floor = NO_UNIT;
    let mut member = members.len();
    while member > 0 {
        member -= 1;
        floor = vote(memory, votes, member, floor, members)?;
    }
    Ok(members[votes - 1])
}

// One member more votes. Those that have voted share no unit and have none below the floor, or the floor is 0.
fn vote(
    memory: &mut FamilyMemory,
    votes: usize,
    member: usize,
    floor: u16,
    members: &mut [NodeRef],
) -> Result<u16, Spent>
    ghost fs: { List (List (List ℕ)) }
    requires { VotesNext memory.old fs votes member floor members.old }
    ensures { MatchResult result (λ lower. Went memory.old memory.new
        × HaveVoted memory.new fs votes member lower members.new) (λ _. RanOut memory.old memory.new) }
{
    let voter = members[member];
    let lower = floor_with(memory, voter, floor);
    // Fewer votes than the members before this one can make up for are not needed, nor are more than are asked for.
    let first = member.max(votes - 1);
    let end = members.len().min(member.saturating_add(votes));
    for place in first..end {
        vote_at(memory, votes, lower, voter, member, place, members)?;
    }
    Ok(lower)
}

// The floor once a family has voted whose units are all below the floor, or 0 where they are not.
fn floor_with(memory: &FamilyMemory, r: NodeRef, floor: u16) -> u16
    requires { Has memory.now r }
    ensures { 1 ≤ result → IsBetween result floor (family_in memory.now r) }
{
    memory.is_sound();
    if r != NodeRef::UNIT && memory.last(r) < floor {
        memory.level(r).min(floor)
    } else {
        0
    }
}

// One place more has the votes with the member. The place has one vote fewer before, and the next place as many.
fn vote_at(
    memory: &mut FamilyMemory,
    votes: usize,
    lower: u16,
    voter: NodeRef,
    member: usize,
    place: usize,
    members: &mut [NodeRef],
) -> Result<(), Spent>
    ghost fs: { List (List (List ℕ)) }
    requires { VotesAt memory.old fs votes member place lower voter members.old }
    ensures { MatchResult result (λ _. Went memory.old memory.new
        × IsVoting memory.new fs votes member (place + 1) members.new) (λ _. RanOut memory.old memory.new) }
{
    let fewer = fewer_votes(members, member, place);
    let same = same_votes(members, place);
    let made = join(memory, lower > 0, voter, same, fewer)?;
    members[place] = made;
    Ok(())
}

// The votes, one fewer than a place will have: no votes have the empty set.
fn fewer_votes(members: &[NodeRef], member: usize, place: usize) -> NodeRef
    requires { place < length members.now }
    ensures { result ≡ (if place == member then 1 else slice_index members.now place) }
{
    if place == member {
        NodeRef::UNIT
    } else {
        members[place]
    }
}

// As many votes as a place will have: all members have no more votes than there are members.
fn same_votes(members: &[NodeRef], place: usize) -> NodeRef
    requires { place < length members.now }
    ensures { result ≡ slice_index members.now (place + 1) }
{
    if place + 1 < members.len() {
        members[place + 1]
    } else {
        NodeRef::EMPTY
    }
}

// The votes without a member, and those one fewer with one of its sets. It may be told to lie below all others.
fn join(
    memory: &mut FamilyMemory,
    below: bool,
    voter: NodeRef,
    same: NodeRef,
    fewer: NodeRef,
) -> Result<NodeRef, Spent>
    requires has { CanJoin memory.old voter same fewer }
    requires below { below ≡ true → IsBelow (family_in memory.old voter) (family_in memory.old same)
        (family_in memory.old fewer) }
    ensures { Answers (IsJoined (family_in memory.old voter) (family_in memory.old same)
        (family_in memory.old fewer)) memory.old memory.new result }
{
    if below {
        join_below(memory, voter, same, fewer)
    } else {
        join_any(memory, voter, same, fewer)
    }
}

// The same of a member below all others: the votes without it take the place of no sets at the end of its diagram's
// lo sides, and those one fewer that of the empty set. No set includes another, so that each node is made at once.
fn join_below(
    memory: &mut FamilyMemory,
    voter: NodeRef,
    same: NodeRef,
    fewer: NodeRef,
) -> Result<NodeRef, Spent>
    requires has { CanJoin memory.old voter same fewer }
    requires below { IsBelow (family_in memory.old voter) (family_in memory.old same) (family_in memory.old fewer) }
    ensures { Answers (IsJoined (family_in memory.old voter) (family_in memory.old same)
        (family_in memory.old fewer)) memory.old memory.new result }
{
    if voter.number() < 2 {
        return Ok(same);
    }
    let one = memory.parts(voter);
    let lo = join_below(memory, one.lo, same, fewer)?;
    let hi = product_below(memory, one.hi, fewer)?;
    branch_node(memory, one.level, lo, hi)
}

// The same of any member.
fn join_any(
    memory: &mut FamilyMemory,
    voter: NodeRef,
    same: NodeRef,
    fewer: NodeRef,
) -> Result<NodeRef, Spent>
    requires { CanJoin memory.old voter same fewer }
    ensures { Answers (IsJoined (family_in memory.old voter) (family_in memory.old same)
        (family_in memory.old fewer)) memory.old memory.new result }
{
    let more = product_by_splitting(memory, fewer, voter)?;
    union(memory, same, more)
}
