//! The observer that says what becomes of packets after each thing that a script does.

ghost use Rattle.std.specs.Prelude.{◌≡◌, ⊤, IfOk, OnOk};
ghost use Rattle.ripng_world.specs.Events.{event_of};
ghost use Rattle.ripng_lab_fates.specs.Telling.{AreFates, Begins, Changes, Follows, IsFresh, IsNoted, IsTurned, Says, Stays, TurnsTo};

use crate::outages::{Change, change_at, changes_in};
use crate::ways::{Step, may_turn, set_step, step_of, steps_of};
use crate::words::write_line;
use prefix6::Addr6;
use ripng_lab::{Network, Notice, Routes, Watch, names_of, watched};
use ripng_world::Event;
use route_table::Moment;
use router_core::Answer;
use std::alloc::{AllocError, Global};
use std::io::{self, Write};

/// Runs a script as [`ripng_lab::lab`] does, and answers whether every line was done. In place of what its lines print, lines are written
/// to `out` that say what becomes of packets for an address, in the form that the root of this crate has.
///
/// # Errors
/// `OutOfMemory` if memory ran out, and nothing is written, else the error of `out`.
pub fn fates<W: Write>(alloc: Global, script: &[u8], addr: Addr6, out: &mut W) -> io::Result<bool>
    ensures { IfOk result (λ done. AreFates script.now addr done (W.contents out.old) (W.contents out.new)) }
{
    let names = names_of(alloc, script)?;
    let changes = changes_in(alloc, script, &names)?;
    let mut teller = Teller::new(alloc, changes, addr);
    let done = watched(alloc, script, &mut teller)?;
    if !teller.is_whole {
        return Err(io::Error::from(AllocError));
    }
    out.write_all(teller.text.as_slice())?;
    Ok(done)
}

/// The observer that writes the lines.
#[derive(Drop)]
pub(crate) struct Teller {
    alloc: Global,
    addr: Addr6,
    /// Which outages the lines of the script begin and end.
    changes: Vec<Change>,
    /// Those of the lines up to now.
    made: Vec<Change>,
    /// What each router does with the packets.
    steps: Vec<Step>,
    /// The lines that are written.
    text: Vec<u8>,
    /// Whether memory was there for each line of an outage.
    is_whole: bool,
}

impl Teller {
    /// Nothing has happened yet.
    fn new(alloc: Global, changes: Vec<Change>, addr: Addr6) -> Teller
        ensures { IsFresh addr result }
    {
        Teller {
            alloc,
            addr,
            changes,
            made: Vec::new(alloc),
            steps: Vec::new(alloc),
            text: Vec::new(alloc),
            is_whole: true,
        }
    }

    /// Writes a line of what becomes of packets now.
    fn say(&mut self) -> io::Result<()>
        ensures { OnOk result (Says self.old self.new) }
    {
        write_line(self.alloc, &self.steps, &self.made, &mut self.text)
    }

    /// Writes a line that says that all is as before.
    fn stay(&mut self) -> io::Result<()>
        ensures { OnOk result (Stays self.old self.new) }
    {
        writeln!(self.text)
    }

    /// All routers have started.
    fn begin(&mut self, lab: &Network) -> io::Result<()>
        ensures { OnOk result (Begins self.old lab.now self.new) }
    {
        self.steps = steps_of(self.alloc, lab, self.addr)?;
        self.say()
    }

    /// A router does something else with the packets.
    fn turn(&mut self, router: usize, step: Step) -> io::Result<()>
        ensures { OnOk result (TurnsTo self.old router step self.new) }
    {
        set_step(&mut self.steps, router, step);
        self.say()
    }

    /// An event was done, or a forged Response came.
    fn follow(&mut self, lab: &Network, event: &Event<'_>, answer: &Answer) -> io::Result<()>
        ensures { OnOk result (Follows self.old lab.now (event_of event.entry.now) answer.now self.new) }
    {
        if may_turn(event, answer, self.addr) {
            let router = event.router();
            let step = step_of(lab, router, self.addr)?;
            self.turn(router, step)
        } else {
            self.stay()
        }
    }

    /// A line is next. If it begins or ends an outage, that has a line of its own.
    fn turn_to(&mut self, number: usize) -> io::Result<()>
        ensures { OnOk result (IsTurned self.old number self.new) }
    {
        match change_at(&self.changes, number) {
            Some(change) => self.change(number, change),
            None => Ok(()),
        }
    }

    /// An outage begins or ends at the line of that number.
    fn change(&mut self, number: usize, change: Change) -> io::Result<()>
        ensures { OnOk result (Changes self.old number change self.new) }
    {
        self.made.push(change)?;
        write!(self.text, "@{number}")?;
        self.say()
    }
}

impl ripng_world::Observer<Routes> for Teller {
    type Fault = io::Error;

    ghost takes = { λ old what new. Follows old what.lab what.event what.answer new };

    ghost fails = { λ _ _ _. ⊤ };

    fn happened(
        &mut self,
        lab: &Network,
        event: &Event<'_>,
        answer: &Answer,
        _: usize,
    ) -> io::Result<()> {
        self.follow(lab, event, answer)
    }
}

impl Watch for Teller {
    ghost starts = { λ old lab _ new. Begins old lab new };

    ghost notes = { λ old aside new. IsNoted old aside new };

    fn at_line(&mut self, number: usize) {
        if self.turn_to(number).is_err() {
            self.is_whole = false;
        }
    }

    fn started(&mut self, lab: &Network, _: Moment) -> io::Result<()> {
        self.begin(lab)
    }

    fn noticed(&mut self, notice: Notice<'_>) -> io::Result<()> {
        if let &Notice::Lied(lab, event, answer, _, _) = &notice {
            self.follow(lab, event, answer)
        } else {
            self.stay()
        }
    }
}
