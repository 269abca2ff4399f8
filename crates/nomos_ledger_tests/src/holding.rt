//! How talks are held in the tests: line by line, and told as text.
ghost use Rattle.std.specs.Prelude.{◌≡◌};

use crate::opening::{TestParty, accepted_of, opening};
use crate::talk_answers::{push_heard, push_refusal, push_rest, push_said, push_word};
use nomos_deeds::talking::Talking;
use nomos_ir::ids::Label;
use nomos_machine::object::{Heard, Said};
use nomos_machine::rest::Rest;
use nomos_monitor::outside_talk::{OutsideTalk, TalkOpening};
use nomos_monitor::talk_refusal::SayError;
use nomos_printing::number::push_number;
use nomos_script::talk_line::{TalkLine, TalkLines};
use nomos_script::talk_parsing::parse_talk;
use nomos_state::indexed::IndexedState;
use nomos_types::accepted::Accepted;
use std::alloc::AllocError;
use std::process::Abort;

// Beyond this no test draws a number.
const FAR: u32 = 1_000_000_000;

// What may be seen of a state from outside.
#[derive(Clone, Copy, PartialEq, Eq)]
struct Glance {
    outside: Option<u32>,
    balance: Option<u128>,
    next_object: u32,
    next_name: u32,
}

// One look at a state.
fn look_at<M: Talking>(machine: &M) -> Glance
    ensures object { result.next_object ≡ (M.state machine.now).next_object }
    ensures name { result.next_name ≡ (M.state machine.now).next_name }
{
    Glance {
        outside: machine.outside(),
        balance: machine.balance(0),
        next_object: machine.next_object(),
        next_name: machine.next_name(),
    }
}

// A talk that is held, how many firings are left to it, and what was told of it so far.
#[derive(Drop)]
struct TestTalk<'a, M: Talking + Drop> {
    accepted: &'a Accepted,
    talk: OutsideTalk<'a, M>,
    left: u32,
    told: Vec<u8>,
}

impl<'a, M: Talking + Drop> TestTalk<'a, M> {
    // Says something. Where memory is wanting nothing may have changed, and it is said once more.
    fn say<R: Abort + AllocGlobal>(&mut self, rt: &R, said: &Said) -> Result<(), SayError> {
        let before = look_at(self.talk.state());
        assert!(rt; before.next_object < FAR && before.next_name < FAR);
        match self.talk.say(rt.alloc(), said) {
            Err(SayError::NoMemory) => {
                assert!(rt; look_at(self.talk.state()) == before);
                self.talk.say(rt.alloc(), said)
            }
            answer => answer,
        }
    }

    // Listens. Where memory is wanting nothing may have changed, and it listens once more.
    fn hear<R: Abort + AllocGlobal>(&mut self, rt: &R) -> Option<Heard> {
        let before = look_at(self.talk.state());
        let heard = match self.talk.hear(rt.alloc()) {
            Err(_) => {
                assert!(rt; look_at(self.talk.state()) == before);
                self.talk.hear(rt.alloc())
            }
            answer => answer,
        };
        match heard {
            Ok(heard) => heard,
            Err(_) => panic!(rt; "memory was wanting twice"),
        }
    }

    // Fires until nothing is ready, and tells how it came to rest. Where memory is wanting it goes on from there.
    fn run<R: Abort + AllocGlobal>(&mut self, rt: &R) -> Rest {
        for _ in 0..2 {
            let before = look_at(self.talk.state());
            assert!(rt; before.next_object < FAR && before.next_name < FAR && self.left < FAR);
            if let Ok(rested) = self.talk.run(rt.alloc(), self.left) {
                self.left = self.left.saturating_sub(rested.made);
                return rested.how;
            }
        }
        panic!(rt; "memory was wanting twice")
    }

    // Tells how the firings came to rest, where they did not end by themselves, and whether they did.
    fn settle<R: Abort + AllocGlobal>(&mut self, rt: &R) -> Result<bool, AllocError> {
        let how = self.run(rt);
        if how == Rest::Quiet {
            return Ok(true);
        }
        push_rest(&mut self.told, how)?;
        push_word(&mut self.told, "\n")?;
        Ok(false)
    }

    // Says something in the line of this number, and whether the talk goes on.
    fn speak<R: Abort + AllocGlobal>(
        &mut self,
        rt: &R,
        number: u32,
        said: Option<Said>,
    ) -> Result<bool, AllocError> {
        let answer = match said {
            Some(said) => self.say(rt, &said),
            None => Err(SayError::Protocol),
        };
        push_number(&mut self.told, u64::from(number))?;
        push_word(&mut self.told, " ")?;
        push_said(&mut self.told, self.accepted.unit(), answer)?;
        push_word(&mut self.told, "\n")?;
        if answer.is_err() {
            return Ok(false);
        }
        self.settle(rt)
    }

    // Listens in the line of this number.
    fn listen<R: Abort + AllocGlobal>(&mut self, rt: &R, number: u32) -> Result<bool, AllocError> {
        let heard = self.hear(rt);
        push_number(&mut self.told, u64::from(number))?;
        push_word(&mut self.told, " heard ")?;
        push_heard(&mut self.told, self.accepted, &heard)?;
        push_word(&mut self.told, "\n")?;
        Ok(true)
    }

    // Does what a line says, and whether the talk goes on.
    fn go_on<R: Abort + AllocGlobal>(
        &mut self,
        rt: &R,
        number: u32,
        line: &TalkLine,
    ) -> Result<bool, AllocError> {
        match line {
            TalkLine::Hear => self.listen(rt, number),
            TalkLine::Pay => self.speak(rt, number, Some(Said::Pay)),
            TalkLine::Value(value) => {
                let value = value.copy()?;
                self.speak(rt, number, Some(Said::Value(value)))
            }
            TalkLine::Label(name) => {
                let said = label_of(self.accepted, name.as_bytes());
                self.speak(rt, number, said)
            }
        }
    }

    // Holds the talk to its end.
    fn hold<R: Abort + AllocGlobal>(
        &mut self,
        rt: &R,
        lines: &[(u32, TalkLine)],
    ) -> Result<(), AllocError> {
        push_word(&mut self.told, "opened\n")?;
        if !self.settle(rt)? {
            return Ok(());
        }
        for (number, line) in lines {
            if !self.go_on(rt, *number, line)? {
                return Ok(());
            }
        }
        Ok(())
    }
}

// The label of this name, if the program has it.
fn label_of(accepted: &Accepted, name: &[u8]) -> Option<Said> {
    let mut place: u32 = 0;
    for label in accepted.program().lists().labels.as_slice() {
        if label.as_bytes() == name {
            return Some(Said::Label(Label(place)));
        }
        place = place.saturating_add(1);
    }
    None
}

// The lines of a talk.
fn lines_of<R: Abort + AllocGlobal>(rt: &R, text: &str) -> TalkLines {
    match parse_talk(rt.alloc(), text.as_bytes()) {
        Ok(lines) => lines,
        Err(_) => panic!(rt; "no talk"),
    }
}

// What is told of a talk that was opened, or why it was not.
fn told_of<M: Talking + Drop, R: Abort + AllocGlobal>(
    rt: &R,
    accepted: &Accepted,
    opened: TalkOpening<'_, M>,
    lines: &[(u32, TalkLine)],
    firings: u32,
) -> Vec<u8> {
    let mut told = Vec::new(rt.alloc());
    match opened {
        TalkOpening::Talk(talk) => {
            let mut held = TestTalk {
                accepted,
                talk,
                left: firings,
                told,
            };
            assert!(rt; held.hold(rt, lines).is_ok());
            held.told
        }
        TalkOpening::Refused(_machine, why) => {
            assert!(rt; push_refusal(&mut told, accepted.unit(), why).is_ok());
            told
        }
        TalkOpening::NoMemory(_machine) => panic!(rt; "memory was wanting twice"),
    }
}

/// What is told of a talk on a contract, with so many firings in all.
pub(crate) fn tell<R: Abort + AllocGlobal>(
    rt: &R,
    contract: &str,
    party: TestParty<'_>,
    talk: &str,
    firings: u32,
) -> Vec<u8> {
    let accepted = accepted_of(rt, contract);
    let lines = lines_of(rt, talk);
    let opened = opening::<IndexedState, R>(rt, &accepted, party);
    told_of(rt, &accepted, opened, lines.as_slice(), firings)
}
