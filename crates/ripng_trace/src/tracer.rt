//! A script, traced or explained: one observer, which writes a record of each thing that happens.

ghost use Rattle.std.specs.Prelude.{◌≡◌, [], Bool, None, Ok, OnErr, OnOk, Option};
ghost use Rattle.ripng_trace.specs.Common.{event_of, LabValue, Broken, IsToldOfLab, IsToldUntil, written_as, IsScriptTraced, IsTraced, IsTracedUntil, BreaksOff, IsPrintWord, Said, SameOutput, SaysAlone, SaysAside, SaysEvent, SaysMove, SaysPrinted, SaysStart, said_by};

use crate::known::Known;
use crate::records::{Action, AsideRecord};
use crate::to_json::{Form, write_record};
use ripng_lab::{
    Ending, Loss, Names, Network, Notice, Printer, Routes, Unmet, Watch, hint_of, names_of,
    print_unmet, watched,
};
use ripng_world::Event;
use route_table::Moment;
use router_core::Answer;
use std::alloc::Global;
use std::io::{self, Write};
use std::str;

/// Runs a script as [`ripng_lab::lab`] does, and returns whether every line was done. In place of what its lines print, a
/// line of JSON is written to `out` for the cold start, for each event, for each line that prints, and for the line that is
/// refused, which ends the script. docs/TRACE.md has the records.
///
/// # Errors
/// `OutOfMemory` where memory ran out, else the error of `out`. Earlier records were written, and less than one more.
pub fn trace<W: Write>(alloc: Global, script: &[u8], out: &mut W) -> io::Result<bool>
    ensures traced { OnOk result ((done : Bool) × (result ≡ Ok done) × (lab : Option LabValue) × IsScriptTraced script.now done (W.contents out.old) lab (W.contents out.new)) }
    ensures traced_until { OnErr result ((lab : Option LabValue) × IsTracedUntil (W.contents out.old) lab (W.contents out.new)) }
{
    observed(alloc, script, Form::Json, false, out)
}

/// Runs a script as [`ripng_lab::lab`] does, and returns whether every line was done. Beside what its lines print, a line of
/// English is written to `out` for the cold start and for each event: what a router received, what it did, and why; with `changes_only`,
/// not of ticks and arrivals that change no forwarding table. docs/SCRIPTS.md has its parts. They say what [`trace`] has in its records.
///
/// # Errors
/// `OutOfMemory` where memory ran out, else the error of `out`.
pub fn explain<W: Write>(
    alloc: Global,
    script: &[u8],
    changes_only: bool,
    out: &mut W,
) -> io::Result<bool> {
    observed(alloc, script, Form::English, changes_only, out)
}

/// Runs a script, and writes a record of each thing that happens.
fn observed<W: Write>(
    alloc: Global,
    script: &[u8],
    form: Form,
    changes_only: bool,
    out: &mut W,
) -> io::Result<bool>
    ensures traced { OnOk result ((done : Bool) × (result ≡ Ok done) × (lab : Option LabValue) × IsScriptTraced script.now done (written_as form (W.contents out.old)) lab (written_as form (W.contents out.new))) }
    ensures traced_until { OnErr result ((lab : Option LabValue) × IsTracedUntil (written_as form (W.contents out.old)) lab (written_as form (W.contents out.new))) }
{
    let names = names_of(alloc, script)?;
    let names = Names::new(&names);
    let mut tracer = Tracer {
        script,
        ticks: 0,
        ticks_at_change: 0,
        known: Known {
            alloc,
            names,
            changes_only,
            asks: false,
            line: 0,
            routers: Vec::new(alloc),
        },
        form,
        out,
    };
    let outcome = watched(alloc, script, &mut tracer);
    let Tracer { known, out, .. } = tracer;
    drop(known);
    // No effect at run time. The proof reads what `out` holds from this use of the reference.
    let _ = &*out;
    outcome
}

/// The observer that writes the records.
#[derive(Drop)]
pub struct Tracer<'a, W: Write> {
    script: &'a [u8],
    ticks: usize,
    /// How many ticks the line had made when a forwarding table last changed or a route was last deleted, or 0.
    ticks_at_change: usize,
    known: Known<'a>,
    form: Form,
    out: &'a mut W,
}

impl<'a, W: Write> Tracer<'a, W> {
    /// Reports an event that was done, or a forged Response, which comes as the datagram of an outside host, or of the router `forger`.
    fn report(
        &mut self,
        lab: &Network,
        event: &Event<'_>,
        is_forged: bool,
        answer: &Answer,
        first: usize,
        forger: Option<usize>,
    ) -> io::Result<()>
        ensures whole { OnOk result (SaysMove is_forged (said_by W.contents self.old) (record { lab = lab.now; event = event_of event.entry.now; answer = answer.now; first = first }) (said_by W.contents self.new) × SameOutput self.old self.new) }
        ensures broken { OnErr result (SaysAside (said_by W.contents self.old) Broken (said_by W.contents self.new) × SameOutput self.old self.new) }
    {
        let known = &mut self.known;
        let record = known.event_record(lab, event, is_forged, answer, first, forger)?;
        let is_tick = matches!(event, Event::Tick { .. });
        self.ticks = self.ticks.saturating_add(usize::from(is_tick));
        let changes = usize::from(record.changes_tables());
        let ticks = self.ticks.saturating_mul(changes);
        self.ticks_at_change = self.ticks_at_change.max(ticks);
        write_record(self.known.alloc, self.form, &record, self.out)
    }

    fn report_action(&mut self, action: Action<'_>) -> io::Result<()>
        ensures whole { OnOk result (SaysAlone action.entry (said_by W.contents self.old) (said_by W.contents self.new) × SameOutput self.old self.new) }
        ensures broken { OnErr result (SaysAside (said_by W.contents self.old) Broken (said_by W.contents self.new) × SameOutput self.old self.new) }
    {
        let line = self.known.line;
        let record = AsideRecord { line, action };
        write_record(self.known.alloc, self.form, &record, self.out)
    }

    /// Reports what a line prints, in the printer's own words, under the name of what it prints.
    fn report_printed(&mut self, word: &'static str, notice: Notice<'_>) -> io::Result<()>
        requires { IsPrintWord word.now }
        ensures whole { OnOk result (SaysPrinted (said_by W.contents self.old) (said_by W.contents self.new) × SameOutput self.old self.new) }
        ensures broken { OnErr result (SaysAside (said_by W.contents self.old) Broken (said_by W.contents self.new) × SameOutput self.old self.new) }
    {
        let (alloc, names) = (self.known.alloc, self.known.names);
        let mut prints = Vec::new(alloc);
        Printer::new(alloc, names, &mut prints).noticed(notice)?;
        let text = str::from_utf8(&prints).unwrap_or("");
        let lines = text.lines().collect(alloc)?;
        self.report_action(Action::Prints { word, lines, text })
    }

    /// Reports that a router asks its neighbors by itself, about a route that it has lost.
    fn report_question(&mut self, router: usize, now: Moment, loss: Loss) -> io::Result<()>
        ensures whole { OnOk result (SaysPrinted (said_by W.contents self.old) (said_by W.contents self.new) × SameOutput self.old self.new) }
        ensures broken { OnErr result (SaysAside (said_by W.contents self.old) Broken (said_by W.contents self.new) × SameOutput self.old self.new) }
    {
        self.known.asks = true;
        self.report_action(Action::Asks {
            names: self.known.names,
            router,
            now: now.ms(),
            lost: loss.prefix,
            lost_at: loss.at.ms(),
        })
    }

    /// Reports that a line has made so many rounds, and the number of the last in which a table changed.
    fn report_rounds(&mut self, rounds: usize) -> io::Result<()>
        ensures whole { OnOk result (SaysPrinted (said_by W.contents self.old) (said_by W.contents self.new) × SameOutput self.old self.new) }
        ensures broken { OnErr result (SaysAside (said_by W.contents self.old) Broken (said_by W.contents self.new) × SameOutput self.old self.new) }
    {
        // Numbered from 0: in each round there were as many ticks.
        let before = self.ticks_at_change.checked_sub(1);
        let last = before.and_then(|n| n.saturating_mul(rounds).checked_div(self.ticks));
        self.report_action(Action::GoesRound { rounds, last })
    }

    /// Reports a line that is refused, with a hint where there is one.
    fn report_refused(&mut self, ending: &Ending) -> io::Result<()>
        ensures whole { OnOk result (SaysPrinted (said_by W.contents self.old) (said_by W.contents self.new) × SameOutput self.old self.new) }
        ensures broken { OnErr result (SaysAside (said_by W.contents self.old) Broken (said_by W.contents self.new) × SameOutput self.old self.new) }
    {
        let alloc = self.known.alloc;
        let hint = hint_of(alloc, self.script, ending)?;
        let why = format!(in alloc; "{}", ending.refusal)?;
        let (how, why) = ("refused ", why.as_str());
        self.report_action(Action::Ends { how, why, hint })
    }

    /// Reports an expectation that is not met.
    fn report_unmet(&mut self, unmet: &Unmet) -> io::Result<()>
        ensures whole { OnOk result (SaysPrinted (said_by W.contents self.old) (said_by W.contents self.new) × SameOutput self.old self.new) }
        ensures broken { OnErr result (SaysAside (said_by W.contents self.old) Broken (said_by W.contents self.new) × SameOutput self.old self.new) }
    {
        let mut prints = Vec::new(self.known.alloc);
        print_unmet(self.known.names, unmet, &mut prints)?;
        let why = str::from_utf8(&prints).unwrap_or("");
        let (how, hint) = ("", None);
        self.report_action(Action::Ends { how, why, hint })
    }
}

impl<'a, W: Write> ripng_world::Observer<Routes> for Tracer<'a, W> {
    type Fault = io::Error;

    ghost takes = { λ old what new. SaysEvent (said_by W.contents old) what (said_by W.contents new) × SameOutput old new };

    ghost fails = { λ old what new. BreaksOff (said_by W.contents old) what (said_by W.contents new) × SameOutput old new };

    fn happened(
        &mut self,
        lab: &Network,
        event: &Event<'_>,
        answer: &Answer,
        first: usize,
    ) -> io::Result<()> {
        self.report(lab, event, false, answer, first, None)
    }
}

impl<'a, W: Write> Watch for Tracer<'a, W> {
    ghost starts = { λ old lab now new. SaysStart (said_by W.contents old) lab now (said_by W.contents new) × SameOutput old new };

    ghost notes = { λ old what new. SaysAside (said_by W.contents old) what (said_by W.contents new) × SameOutput old new };

    fn at_line(&mut self, number: usize) {
        self.known.line = number;
        self.known.asks = false;
        self.ticks = 0;
        self.ticks_at_change = 0;
    }

    fn started(&mut self, lab: &Network, now: Moment) -> io::Result<()> {
        let record = self.known.start_record(lab, now)?;
        write_record(self.known.alloc, self.form, &record, self.out)
    }

    fn noticed(&mut self, notice: Notice<'_>) -> io::Result<()> {
        match notice {
            Notice::Routes(..) => self.report_printed("print", notice),
            Notice::Datagrams(..) => self.report_printed("sent", notice),
            Notice::Way(_) => self.report_printed("path", notice),
            Notice::Horizon { .. } => self.report_printed("horizon", notice),
            Notice::Said(_) => self.report_printed("say", notice),
            Notice::Asks { router, now, loss } => self.report_question(router, now, loss),
            Notice::Lost(datagram) => self.report_action(Action::Loses(datagram)),
            Notice::Rounds(rounds) => self.report_rounds(rounds),
            Notice::Phases(made) => self.report_action(Action::Makes(made)),
            Notice::Ran { until, seed } => {
                let until = until.ms();
                self.report_action(Action::Runs { until, seed })
            }
            Notice::Counts(counts) => self.report_action(Action::Tallies(counts)),
            Notice::Lied(lab, event, answer, first, forger) => {
                self.report(lab, event, true, answer, first, forger)
            }
            Notice::Refused(ending) => self.report_refused(&ending),
            Notice::Unmet(unmet) => self.report_unmet(&unmet),
        }
    }
}

/// An observer that is notified of all that happens in a script's lab, knows no table before, and makes of each notice what the
/// tracer makes of it, has traced the script: a reader of the lines has each router's table after each of them.
pub fn readers_know_each_table()
    ensures told { (said said' : Said) (lab : Option LabValue) → said.known.routers ≡ [] → IsToldOfLab SaysStart SaysEvent SaysAside (None, said) (lab, said')
        → IsTraced said.written lab said'.written }
    ensures told_until { (said said' : Said) (lab : Option LabValue) → said.known.routers ≡ [] → IsToldUntil SaysStart SaysEvent BreaksOff SaysAside (None, said) (lab, said')
        → IsTracedUntil said.written lab said'.written }
{}
