//! How the state is asked for: a question goes to the door, and the answer comes back.
use mio::Waker;
use rtrb::{Consumer, Producer, RingBuffer};
use status_core::ProxyStatus;
use std::alloc::{AllocError, Global};
use std::sync::Arc;
use std::time::Duration;
use std::{rt, thread};

/// How often it is looked for an answer, 1 ms apart.
const MOST_LOOKS: u32 = 2_000;

/// How many answers wait at the most: the one that is wanted, and one to a question that was given up.
const MOST_ANSWERS: usize = 2;

/// The answer to the question of that number: the state, or none without memory for it.
#[derive(Drop)]
pub struct StatusAnswer {
    pub number: u64,
    pub status: Option<ProxyStatus>,
}

/// Asks for the state. It is used by one thread alone.
#[derive(Drop)]
pub struct StatusAsker {
    questions: Producer<u64>,
    answers: Consumer<StatusAnswer>,
    // The door keeps it too, since a wake is lost if its waker is dropped first.
    waker: Arc<Waker, Global>,
    /// The number of the last question.
    number: u64,
}

/// The end of the door.
#[derive(Drop)]
pub struct StatusEnd {
    pub questions: Consumer<u64>,
    pub answers: Producer<StatusAnswer>,
}

/// An asker, and the door's end of its line.
pub fn status_line(
    alloc: Global,
    waker: Arc<Waker, Global>,
) -> Result<(StatusAsker, StatusEnd), AllocError> {
    let (ask, questions) = RingBuffer::new(alloc, 1)?;
    let (answer, answers) = RingBuffer::new(alloc, MOST_ANSWERS)?;
    let asker = StatusAsker {
        questions: ask,
        answers,
        waker,
        number: 0,
    };
    let end = StatusEnd {
        questions,
        answers: answer,
    };
    Ok((asker, end))
}

impl StatusAsker {
    /// Asks for the state, and waits for it for 2 s at the most. None where it does not come, or without memory for it.
    pub fn ask<R: rt::Clock>(&mut self, rt: &R) -> Option<ProxyStatus> {
        self.number = self.number.wrapping_add(1);
        // While the last question is not taken nothing takes this one.
        if self.questions.push(self.number).is_err() {
            return None;
        }
        let _woken = self.waker.wake();
        for _look in 0..MOST_LOOKS {
            match self.answers.pop() {
                Ok(StatusAnswer { number, status }) if number == self.number => return status,
                Ok(_late) => {}
                Err(_) => thread::sleep(rt, Duration::from_millis(1)),
            }
        }
        None
    }
}
