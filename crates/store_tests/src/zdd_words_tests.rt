//! Words and homes of some nodes, computed by hand.
use std::test::Fail;
use worked_families::unit;
use zdd_words::{NodeRef, Parts, home, pack, unpack};

// Whether the node of a level and a lo, whose hi is the family of the empty set, has this word, and the word its parts.
fn has_word(level: u16, lo: NodeRef, wanted: u64) -> Result<bool, Fail> {
    let node = Parts {
        level: unit(level)?,
        lo,
        hi: NodeRef::UNIT,
    };
    let word = pack(node.level, node.lo, node.hi);
    Ok(word == wanted && unpack(word) == node)
}

#[test]
fn nodes_have_their_words(rt: HostRuntime) -> Result<(), Fail> {
    assert!(rt; has_word(1, NodeRef::EMPTY, 0x0010_0000_0000_0001)?);
    assert!(rt; has_word(2, NodeRef::EMPTY, 0x0020_0000_0000_0001)?);
    assert!(rt; has_word(2, NodeRef::at_slot(0), 0x0020_0000_0800_0001)?);
    assert!(rt;
        has_word(
            4095,
            NodeRef::at_slot(33_554_431),
            18_444_492_273_962_975_233
        )?
    );
    Ok(())
}

// The first word is that of level 1, the second that of level 2, and the last the greatest.
#[test]
fn homes_follow_the_word_and_the_size_of_the_table(rt: HostRuntime) {
    assert!(rt; home(4_503_599_627_370_497, 10) == 382);
    assert!(rt; home(9_007_199_254_740_993, 10) == 131);
    assert!(rt; home(4_503_599_627_370_497, 20) == 391_287);
    assert!(rt; home(4_503_599_627_370_497, 25) == 12_521_203);
    assert!(rt; home(18_444_492_273_962_975_233, 25) == 21_436_743);
}

#[test]
fn references_are_ordered_by_number(rt: HostRuntime) {
    assert!(rt; NodeRef::EMPTY.number() == 0);
    assert!(rt; NodeRef::UNIT.number() == 1);
    assert!(rt; NodeRef::at_slot(0).number() == 2);
    assert!(rt; NodeRef::UNIT < NodeRef::at_slot(0));
    assert!(rt; NodeRef::EMPTY != NodeRef::UNIT);
}
