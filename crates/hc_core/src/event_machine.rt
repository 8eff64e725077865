// The machine where events alone come.
ghost use Rattle.std.specs.Prelude.{◌≡◌, ◌<◌, IfOk, OnErr};
ghost use Rattle.hc_core.specs.Kept.{MayTakeMemory, NoneIsDesks, PutsShortKey};
ghost use Rattle.hc_core.specs.Machine.{Answers, after, start};
ghost use Rattle.hc_core.specs.Sound.{IsSound};

use crate::{Core, Event, NoMemory, Outcome};
use std::alloc::Global;

/// The machine where events alone come: no desk makes its calls, and so each event may come.
#[derive(Drop)]
pub struct EventMachine {
    core: Core,
    ghost events: { NoneIsDesks core },
}

impl EventMachine {
    /// A new machine for some number of connections, at least 1.
    pub fn new(alloc: Global, conns: u32) -> Result<EventMachine, NoMemory>
        requires { 0 < conns }
        ensures { IfOk result (λ machine. machine.core ≡ start conns) }
    {
        Ok(EventMachine {
            core: Core::new(alloc, conns)?,
        })
    }

    /// Takes one event of any connection, in any order, as `Core::step` does.
    pub fn step(&mut self, event: &Event) -> Result<Outcome, NoMemory>
        requires key { PutsShortKey event.now }
        ensures answer { IfOk result (λ outcome. Answers self.old.core event.now outcome) }
        ensures after { IfOk result (λ outcome. self.new.core ≡ after self.old.core event.now outcome) }
        ensures sound { IsSound self.new.core }
        ensures memory { OnErr result (MayTakeMemory event.now) }
        ensures no_memory { OnErr result (self.new.core ≡ self.old.core) }
    {
        self.core.step(event)
    }
}
