//! Answers to questions that are near each other, and to questions that differ in the operation alone.
use kept_answers::{Answers, Entry, Operation, Question};
use std::alloc::Global;
use std::test::Fail;
use zdd_words::NodeRef;

// The question of a number, beside those that have numbers near it.
fn question(operation: Operation, number: u32) -> Question {
    let slot = number.min(9_999);
    Question {
        operation,
        first: NodeRef::at_slot(slot),
        second: NodeRef::at_slot(slot + 1),
    }
}

// Tells the answers to the questions of so many numbers.
fn tell(answers: &mut Answers, count: u32) {
    for number in 0..count {
        let question = question(Operation::Product, number);
        let answer = question.first;
        answers.keep(Entry { question, answer });
    }
}

// How many of these answers are kept.
fn kept_of(answers: &Answers, count: u32) -> u32 {
    let mut kept = 0u32;
    for number in 0..count {
        let question = question(Operation::Product, number);
        if answers.answer(&question) == Some(question.first) {
            kept = kept.saturating_add(1);
        }
    }
    kept
}

// Whether most answers are kept: of a thousand when the table has grown to its room, by so many that it has to, and of
// six hundred when it was cleared.
fn are_mostly_kept(alloc: Global) -> Result<bool, Fail> {
    let mut answers = Answers::new(alloc, 16_384)?;
    tell(&mut answers, 5_000);
    tell(&mut answers, 1_000);
    let grown = kept_of(&answers, 1_000);
    answers.clear();
    tell(&mut answers, 600);
    Ok(grown >= 900 && kept_of(&answers, 600) >= 400)
}

// The answer to the one question, asked of an operation.
fn answer_of(answers: &Answers, operation: Operation) -> Option<NodeRef> {
    answers.answer(&question(operation, 7))
}

// Whether an answer is kept for its operation, for no other, and not beyond a clearing.
fn is_of_its_operation(alloc: Global) -> Result<bool, Fail> {
    let mut answers = Answers::new(alloc, 1)?;
    answers.keep(Entry {
        question: question(Operation::Union, 7),
        answer: NodeRef::UNIT,
    });
    let own = answer_of(&answers, Operation::Union) == Some(NodeRef::UNIT);
    let other = answer_of(&answers, Operation::Without).is_some()
        || answer_of(&answers, Operation::Product).is_some()
        || answer_of(&answers, Operation::Minimal).is_some();
    answers.clear();
    Ok(own && !other && answer_of(&answers, Operation::Union).is_none())
}

#[test]
fn answers_are_kept_each_for_its_question(rt: HostRuntime) -> Result<(), Fail> {
    assert!(rt; are_mostly_kept(rt.alloc())?);
    assert!(rt; is_of_its_operation(rt.alloc())?);
    Ok(())
}
