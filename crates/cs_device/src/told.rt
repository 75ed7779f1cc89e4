//! A clock's answers so far, for those who make clocks.
ghost use Rattle.std.specs.Prelude.{◌≡◌};
ghost use Rattle.cs_device.specs.Telling.{nothing_told, telling, said};

use crate::clock::Tick;
use crate::failures::Failures;
use std::marker::Model;

/// A clock's answers so far. Each goes through [`tell`](Told::tell).
#[derive(Drop)]
pub struct Told {
    answer: Option<Tick>,
    faults: Failures,
    greatest: u64,
    rises: u64,
}

impl Model for Told {
    ghost use Rattle.std.specs.Prelude.{◌≤◌};
    ghost use Rattle.cs_device.specs.Telling.{Telling};

    ghost Value = { Telling };

    ghost view = { λ a. record
        { last = a.answer; failures = a.faults; top = a.greatest; risen = a.rises } };

    // each rise is to a greater minute
    ghost invariant = { λ a. a.rises ≤ a.greatest };
}

impl Told {
    /// Returns no answers.
    pub fn nothing() -> Told
        ensures { result ≡ nothing_told }
    {
        Told {
            answer: None,
            faults: Failures::none(),
            greatest: 0,
            rises: 0,
        }
    }

    /// Notes an answer, and returns it. After 2^64 - 1 failures, another is [`Stop`](Tick::Stop).
    pub fn tell(&mut self, tick: Tick) -> Tick
        ensures answer { result ≡ said self.old tick }
        ensures told { self.new ≡ telling self.old result }
    {
        let is_untold = tick == Tick::Failed && !self.faults.count();
        let answer = if is_untold { Tick::Stop } else { tick };
        if let Tick::At(minute) = &answer {
            if minute.number() > self.greatest {
                self.greatest = minute.number();
                self.rises += 1;
            }
        }
        self.answer = Some(answer);
        answer
    }
}
