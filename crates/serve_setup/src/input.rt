//! What standard input says while `l4proxy serve` runs.
use crate::stats;
use crate::stats::StatusFault;
use arrayvec::ArrayVec;
use config_core::{OpenFault, read_plan};
use link_core::Clock;
use log::{Log, warn};
use socket_core::{Command, CommandSender, DoorPlan, Pace, StatusAsker, SystemClock};
use status_core::Outline;
use std::alloc::{AllocError, Global};
use std::io::Read;
use std::rt::Files;
use std::sync::Arc;
use std::time::Duration;
use std::{fs, io, rt, thread};

/// How many bytes of standard input are read at a time.
const BLOCK: usize = 4_096;

/// So many bytes of a line are kept: more than a word and a carriage return have, so that no longer line is taken for a
/// word.
const KEPT: usize = 8;

/// How often a word is handed in if the door has no room for it, 10 ms apart.
const MOST_TRIES: u32 = 1_000;

/// The reader of standard input, and when it last spoke of each cause.
#[derive(Drop)]
struct Ear<'a, R: rt::Clock> {
    rt: &'a R,
    file: &'a str,
    commands: CommandSender,
    questions: Questions,
    clock: SystemClock<'a, R>,
    unknown: Pace,
    unreadable: Pace,
    full: Pace,
    unasked: Pace,
}

/// What the reader of standard input needs to ask for the state.
#[derive(Drop)]
pub struct Questions {
    pub asker: StatusAsker,
    /// When the program was started, in ms since 1970.
    pub started: u64,
    /// The sections of the first configuration.
    pub first: Arc<Outline, Global>,
}

impl<'a, R: Files + AllocGlobal + rt::Clock + Log + Eprint> Ear<'a, R> {
    /// Writes the state on standard error.
    fn say_status(&mut self) {
        let questions = &mut self.questions;
        let why = match stats::say(self.rt, &mut questions.asker, questions.started) {
            Ok(()) => return,
            Err(StatusFault::Unknown) => "it did not come",
            Err(StatusFault::NoMemory) => "no memory",
        };
        if self.unasked.allows(self.clock.now()) {
            warn!(self.rt; "no status is written: {why}");
        }
    }

    /// Hands the text of the file to the door. If the file cannot be read, nothing changes.
    fn reload(&mut self) {
        let Ok(text) = fs::read_to_string(self.rt, self.file) else {
            if self.unreadable.allows(self.clock.now()) {
                warn!(self.rt; "nothing is reloaded: {} cannot be read", self.file);
            }
            return;
        };
        let Ok(plan) = self.plan_of(text.as_str()) else {
            if self.unreadable.allows(self.clock.now()) {
                warn!(self.rt; "nothing is reloaded: no memory for {}", self.file);
            }
            return;
        };
        if !self.hand_in(Command::Reload(text, plan)) && self.full.allows(self.clock.now()) {
            warn!(self.rt; "nothing is reloaded: too many reloads wait");
        }
    }

    /// What the door has to know of a text. One with a fault is refused.
    fn plan_of(&self, text: &str) -> Result<DoorPlan, AllocError> {
        let alloc = self.rt.alloc();
        match read_plan(alloc, text) {
            Ok(plan) => DoorPlan::later(alloc, &plan, &self.questions.first),
            Err(OpenFault::NoMemory) => Err(AllocError),
            Err(_) => DoorPlan::none(alloc),
        }
    }

    /// Hands a word to the door, and waits for room as long as need be, 10 s at the most; whether there was room.
    fn hand_in(&mut self, word: Command) -> bool {
        let mut word = word;
        for _try in 0..MOST_TRIES {
            match self.commands.send(word) {
                Ok(()) => return true,
                Err(back) => word = back,
            }
            thread::sleep(self.rt, Duration::from_millis(10));
        }
        false
    }

    /// Does what a line says; whether another line may follow.
    fn hear(&mut self, line: &[u8]) -> bool {
        match line.strip_suffix(b"\r").unwrap_or(line) {
            b"reload" => self.reload(),
            b"status" => self.say_status(),
            b"quit" => return false,
            _ => {
                if self.unknown.allows(self.clock.now()) {
                    warn!(self.rt; "a line of standard input is skipped: it is none of `reload`, `status` and `quit`");
                }
            }
        }
        true
    }

    /// Hears the lines of the input one after another, up to `quit` or the end. The last line may lack its line feed.
    fn listen(&mut self, input: &mut impl Read) {
        let mut block = [0u8; BLOCK];
        let mut line = ArrayVec::<u8, KEPT>::new();
        for _block in 0..u64::MAX {
            let count = match input.read(&mut block) {
                Ok(count) => count,
                Err(error) if error.kind() == io::ErrorKind::Interrupted => continue,
                Err(_) => 0,
            };
            if count == 0 {
                break;
            }
            for byte in block.iter().take(count) {
                if *byte != b'\n' {
                    let _is_kept = line.try_push(*byte);
                } else if self.hear(line.as_slice()) {
                    line.clear();
                } else {
                    return;
                }
            }
        }
        if !line.is_empty() {
            let _goes_on = self.hear(line.as_slice());
        }
    }
}

/// Hands the words of standard input to the door: `reload` reads the file again, `quit` and the end of the input close
/// the door; `status` writes the state on standard error. Other lines are skipped, whatever their length.
pub fn read_words<'a, R: Files + AllocGlobal + io::Input + rt::Clock + Log + Eprint>(
    rt: &'a R,
    file: &'a str,
    commands: CommandSender,
    questions: Questions,
) {
    // Without the time the sender is dropped here, which closes the door.
    let Ok(clock) = SystemClock::start(rt) else {
        return;
    };
    let mut ear = Ear {
        rt,
        file,
        commands,
        questions,
        clock,
        unknown: Pace::new(),
        unreadable: Pace::new(),
        full: Pace::new(),
        unasked: Pace::new(),
    };
    ear.listen(&mut rt.reader());
    let _is_in = ear.commands.send(Command::Quit);
}
