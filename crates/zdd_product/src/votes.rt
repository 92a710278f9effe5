//! Votes over a list of families.
ghost use Rattle.std.specs.Prelude.{◌≡◌, ◌+◌, ◌-◌, ◌<◌, ◌≤◌, ℕ, ◌==◌, if◌then◌else◌, All, IfErr, IfOk, MatchResult};
ghost use Rattle.std.specs.Prelude.{length, slice_index};
ghost use Rattle.zdd_families.specs.Due.{IsDueToVotes};
ghost use Rattle.zdd_families.specs.Votes.{IsVotes};
ghost use Rattle.zdd_families.specs.Map.{Knows, family};
ghost use Rattle.zdd_shared_table.specs.Seats.{map_of};
ghost use Rattle.zdd_product.specs.Seats.{Gave, WasFull, WentOn};
ghost use Rattle.zdd_product.specs.Voting.{CanVote, HoldsVotes, IsVoting, families};

use crate::ops::Ops;
use zdd_shared_table::Full;
use zdd_words::NodeRef;

// No votes yet: each number of votes has no sets.
fn clear(k: usize, room: &mut [NodeRef])
    requires { k ≤ length room.old }
    ensures { (place : ℕ) → place < k → slice_index room.new place ≡ 0 }
{
    for place in 0..k {
        room[place] = NodeRef::EMPTY;
    }
}

// The votes, one fewer than stand at a place: no votes have the empty set.
fn fewer_votes(room: &[NodeRef], place: usize) -> NodeRef
    requires { place < length room.now }
    ensures { result ≡ (if place == 0 then 1 else slice_index room.now (place - 1)) }
{
    if place == 0 {
        NodeRef::UNIT
    } else {
        room[place - 1]
    }
}

impl<'s> Ops<'s> {
    /// Each union of sets chosen one from each of k distinct positions of the list. What the room holds
    /// afterwards is left open.
    pub fn votes(&mut self, k: u32, list: &[NodeRef], room: &mut [NodeRef]) -> Result<NodeRef, Full>
        requires some { 1 ≤ k }
        requires room { k ≤ length room.old }
        requires knows { All (Knows (map_of self.old)) list.now }
        ensures gives { let fs = families (map_of self.old) list.now in
            IfOk result (Gave (IsVotes k fs) (IsDueToVotes k fs) self.old self.new) }

        // Only a search that passed every slot of the store ends the operation, and it is counted.
        ensures full { let fs = families (map_of self.old) list.now in
            IfErr result (λ _. WasFull (IsDueToVotes k fs) self.old self.new) }
    {
        self.is_sound();
        let k = k as usize;
        clear(k, room);
        self.vote_all(k, list, room)?;
        Ok(room[k - 1])
    }

    // Each member of the list votes.
    fn vote_all(&mut self, k: usize, list: &[NodeRef], room: &mut [NodeRef]) -> Result<(), Full>
        requires can { CanVote self.old list.now k room.old }
        requires held { HoldsVotes (map_of self.old) list.now 0 0 k room.old }
        ensures { MatchResult result (λ _. WentOn (IsDueToVotes k (families (map_of self.old) list.now)) self.old
            self.new × HoldsVotes (map_of self.new) list.now (length list.now) 0 k room.new)
            (λ _. WasFull (IsDueToVotes k (families (map_of self.old) list.now)) self.old self.new) }
    {
        for i in 0..list.len() {
            self.vote(k, list, i, room)?;
        }
        Ok(())
    }

    // One member more votes.
    fn vote(
        &mut self,
        k: usize,
        list: &[NodeRef],
        i: usize,
        room: &mut [NodeRef],
    ) -> Result<(), Full>
        requires within { i < length list.now }
        requires can { CanVote self.old list.now k room.old }
        requires held { HoldsVotes (map_of self.old) list.now i 0 k room.old }
        ensures { MatchResult result (λ _. WentOn (IsDueToVotes k (families (map_of self.old) list.now)) self.old
            self.new × HoldsVotes (map_of self.new) list.now (i + 1) 0 k room.new)
            (λ _. WasFull (IsDueToVotes k (families (map_of self.old) list.now)) self.old self.new) }
    {
        // From the most votes down, since each number of votes is made from those one fewer before this member.
        let mut place = k;
        while place > 0 {
            place -= 1;
            self.vote_at(k, list, i, place, room)?;
        }
        Ok(())
    }

    // The votes at one place take in one vote fewer with a set of the member.
    fn vote_at(
        &mut self,
        k: usize,
        list: &[NodeRef],
        i: usize,
        place: usize,
        room: &mut [NodeRef],
    ) -> Result<(), Full>
        requires within { i < length list.now }
        requires place { place < k }
        requires can { CanVote self.old list.now k room.old }
        requires held { IsVoting (map_of self.old) list.now k i (place + 1) room.old }
        ensures { MatchResult result (λ _. WentOn (IsDueToVotes k (families (map_of self.old) list.now)) self.old
            self.new × IsVoting (map_of self.new) list.now k i place room.new)
            (λ _. WasFull (IsDueToVotes k (families (map_of self.old) list.now)) self.old self.new) }
    {
        let fewer = fewer_votes(room, place);
        let member = list[i];
        let more = self.multiply(fewer, member)?;
        let same = room[place];
        let made = self.unite(same, more)?;
        room[place] = made;
        Ok(())
    }
}
