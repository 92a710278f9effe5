//! A line of names, kept from one to the next.
ghost use Rattle.std.specs.Prelude.{◌≡◌, ◌+◌, ◌^◌, ◌<◌, ◌≤◌, ℕ, List, [], ◌++◌, ◌∷◌, OnOk, true, false, length};
ghost use Rattle.std.specs.Prelude.{codes, decimal, take};
ghost use Rattle.std.specs.List.{flat_map};
ghost use Rattle.fault_definitions.specs.Tree.{FaultTree, IsUnitOf};
ghost use Rattle.cut_texts.specs.CutsText.{cut_number};
ghost use Rattle.cut_texts.specs.UnitTexts.{AreTextsOf, spaced};

use crate::spelled::Spelled;
use itoa::Buffer;
use std::alloc::{AllocError, Global};
use unit_sets::UnitNo;

// What stands before the number of a cut set.
pub(crate) const CUT: &[u8] = b"cut ";

/// A head, the names of some units, each behind a blank, and a tail: all that is put of a cut set or an order at once.
///
/// Cut sets and orders come in lexicographic order, so that most lines begin as the one before does: that part of the
/// text is kept, and the number of a cut set counts up where it stands.
#[derive(Drop)]
pub(crate) struct Line {
    // How many bytes the head has, and 0 where there is none.
    head: usize,
    units: Vec<UnitNo>,
    // Where the name of each unit ends in the text.
    ends: Vec<usize>,
    pub text: Vec<u8>,
}

impl Line {
    ghost use Rattle.cut_texts.specs.Lines.{IsLine, LineSpells, SameHead, SpellsSome, StartsWith};
    ghost use Rattle.cut_texts.specs.Spelling.{CanSpell};

    /// A line without a head and units, which takes no memory.
    pub(crate) fn new(alloc: Global) -> Line
        ensures { (tree : FaultTree) (start : List ℕ) → IsLine tree start result }
    {
        Line {
            head: 0,
            units: Vec::new(alloc),
            ends: Vec::new(alloc),
            text: Vec::new(alloc),
        }
    }

    /// Turns the head from the number of a cut set to the next number, and says whether it did: it may want memory.
    #[inline(always)]
    pub(crate) fn count_to(&mut self, before: usize) -> bool
        requires countable { before < usize.MAX }
        requires within { self.old.head ≤ length self.old.text.items }
        requires start { StartsWith (cut_number before) self.old }
        ensures start { StartsWith (cut_number (before + 1)) self.new }
        ensures head { result ≡ true → take self.new.head self.new.text.items ≡ cut_number (before + 1) }
        ensures names { (tree : FaultTree) (tail : List ℕ) → LineSpells tree self.old tail
            → SpellsSome tree self.new }
    {
        if self.count_on() {
            return true;
        }
        self.begin(&[CUT, Buffer::new().format(before + 1).as_bytes(), b":"])
    }

    // Counts the number in the head up by one, if there is a head and the number does not take a digit more.
    #[inline(always)]
    fn count_on(&mut self) -> bool
        requires within { self.old.head ≤ length self.old.text.items }
        requires room { 0 < self.old.head → 5 ≤ self.old.head }
        ensures head { (n : ℕ) → n + 1 < 2 ^ 64 → StartsWith (cut_number n) self.old → result ≡ true
            → take self.new.head self.new.text.items ≡ cut_number (n + 1) }
        ensures names { (tree : FaultTree) (tail : List ℕ) → LineSpells tree self.old tail
            → LineSpells tree self.new tail }
    {
        if self.head == 0 {
            return false;
        }
        let end = self.head - 1;
        count_up(&mut self.text[CUT.len()..end])
    }

    /// Makes sure that the line has the head of an order, and says whether it does: it may want memory.
    pub(crate) fn begin_once(&mut self) -> bool
        requires start { StartsWith (codes " ") self.old }
        ensures start { StartsWith (codes " ") self.new }
        ensures head { result ≡ true → take self.new.head self.new.text.items ≡ codes " " }
        ensures names { (tree : FaultTree) → SpellsSome tree self.old → SpellsSome tree self.new }
    {
        if self.head > 0 {
            return true;
        }
        self.begin(&[b" "])
    }

    // Begins with a head of these pieces, and no units.
    fn begin(&mut self, head: &[&[u8]]) -> bool
        ensures start { StartsWith (flat_map (λ piece. piece.now) head.now) self.new }
        ensures head { result ≡ true
            → take self.new.head self.new.text.items ≡ flat_map (λ piece. piece.now) head.now }
        ensures names { (tree : FaultTree) → LineSpells tree self.new [] }
    {
        self.head = 0;
        self.units.clear();
        self.ends.clear();
        self.text.clear();
        if add_pieces(&mut self.text, head).is_err() {
            self.text.clear();
            return false;
        }
        self.head = self.text.len();
        true
    }

    /// Turns to the names of these units and a tail, and says whether it did. For want of memory it turns to others. It
    /// is inlined, so that the length of the tail is known where it is added.
    #[inline(always)]
    pub(crate) fn turn_to(&mut self, names: &Spelled, units: &[UnitNo], tail: &[u8]) -> bool
        requires spelled { CanSpell names.now units.now }
        requires line { SpellsSome names.now.tree.now self.old }
        ensures line { SpellsSome names.now.tree.now self.new }
        ensures head { SameHead self.old self.new }
        ensures text { result ≡ true → self.new.text.items
            ≡ take self.old.head self.old.text.items ++ (spaced names.now.tree.now units.now ++ tail.now) }
    {
        let common = self.common(units);
        self.keep(common);
        if self.add_all(names, &units[common..]).is_err() {
            return false;
        }
        self.text.extend_from_slice(tail).is_ok()
    }

    // With how many of the units it begins.
    fn common(&self, units: &[UnitNo]) -> usize
        ensures own { result ≤ length self.now.units.items }
        ensures other { result ≤ length units.now }
        ensures same { take result self.now.units.items ≡ take result units.now }
    {
        let most = self.units.len().min(units.len());
        for i in 0..most {
            if self.units[i].number() != units[i].number() {
                return i;
            }
        }
        most
    }

    // Keeps the first of its units, and nothing behind them.
    fn keep(&mut self, count: usize)
        requires within { count ≤ length self.old.units.items }
        requires ends { length self.old.ends.items ≡ length self.old.units.items }
        ensures line { (tree : FaultTree) → SpellsSome tree self.old → LineSpells tree self.new [] }
        ensures units { self.new.units.items ≡ take count self.old.units.items }
        ensures head { (tree : FaultTree) → SpellsSome tree self.old → SameHead self.old self.new }
    {
        let end = if count == 0 {
            self.head
        } else {
            self.ends[count - 1]
        };
        self.text.truncate(end);
        self.ends.truncate(count);
        self.units.truncate(count);
    }

    // Adds units.
    #[inline(always)]
    fn add_all(&mut self, names: &Spelled, units: &[UnitNo]) -> Result<(), AllocError>
        requires spelled { CanSpell names.now units.now }
        requires line { LineSpells names.now.tree.now self.old [] }
        ensures line { LineSpells names.now.tree.now self.new [] }
        ensures units { OnOk result (self.new.units.items ≡ self.old.units.items ++ units.now) }
        ensures head { SameHead self.old self.new }
    {
        for unit in units {
            self.add(names, *unit)?;
        }
        Ok(())
    }

    // Adds a unit. For want of memory the line stays.
    #[inline(always)]
    fn add(&mut self, names: &Spelled, unit: UnitNo) -> Result<(), AllocError>
        requires unit { IsUnitOf names.now.tree.now unit }
        requires texts { AreTextsOf names.now.tree.now names.now.texts.now }
        requires line { LineSpells names.now.tree.now self.old [] }
        ensures line { LineSpells names.now.tree.now self.new [] }
        ensures units { OnOk result (self.new.units.items ≡ self.old.units.items ++ unit ∷ []) }
        ensures head { SameHead self.old self.new }
    {
        self.units.reserve(1)?;
        self.ends.reserve(1)?;
        self.text.extend_from_slice(names.texts.text(unit))?;
        self.units.push_reserved(unit);
        self.ends.push_reserved(self.text.len());
        Ok(())
    }
}

// Adds these pieces to a text.
pub(crate) fn add_pieces(text: &mut Vec<u8>, pieces: &[&[u8]]) -> Result<(), AllocError>
    ensures { OnOk result (text.new.items ≡ text.old.items ++ flat_map (λ piece. piece.now) pieces.now) }
{
    for piece in pieces {
        text.extend_from_slice(piece)?;
    }
    Ok(())
}

// Counts a number up by one where its digits stand. False where each is a nine: then they are zeros.
fn count_up(digits: &mut [u8]) -> bool
    ensures counted { (n : ℕ) → n + 1 < 2 ^ 64 → digits.old ≡ decimal n → result ≡ true
        → digits.new ≡ decimal (n + 1) }
    ensures none { digits.old ≡ [] → result ≡ false }
{
    if digits.is_empty() {
        return false;
    }
    let last = digits.len() - 1;
    if digits[last] < b'9' {
        digits[last] += 1;
        return true;
    }
    digits[last] = b'0';
    count_up(&mut digits[..last])
}
