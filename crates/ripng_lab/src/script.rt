//! A script, line by line: its routers are listed until they start, and then live in a network.

ghost use Rattle.std.specs.Prelude.{◌≡◌, ◌⊎◌, ◌∷◌, [], ℕ, IfOk, IsErrAnd, List, None, OnErr, false, OnOk, Option, is_some, map, true};
ghost use Rattle.ripng_lab.specs.Common.{Broken, EndsScript, LabValue, HasDone, HasTold, HasWords, IsBlank, has_failed, is_failure, IsFollowed, IsNote, IsLie, IsObeyed, IsOfScript, IsToldOfLab, IsToldUntil, Means, IsVerbOf, Prints, Says, Starts, arrival_by, asks_by, awaited_by, lab_in, lines_of, mode_of};

mod asks;

use crate::asking::Asker;
use crate::course::check_named;
use crate::forms::Verb;
use crate::line::read_line;
use crate::listing::list;
use crate::printer::{Ending, Names, Notice, Printer, Watch, names_of};
use crate::{
    BadLine, Context, Counted, Counter, Counting, Course, Line, Network, Outcome, Refusal,
    RefusalName, Stop, Unmet,
};
use ripng_world::{Lab, LabError, NetConfig, Node};
use route_table::Moment;
use std::alloc::{AllocError, Global};
use std::io::{self, Write};
use std::{mem, str};

/// Runs a script, line by line, and answers whether every line was done. What its lines print is written to `out`; the
/// first line that is refused is named by `line L refused ..`, counted from 1, and ends the script; so is the first
/// expectation that is not met, by `line L expected .. found ..`.
///
/// # Errors
/// `OutOfMemory` where memory was refused, else the fault of `out`. What earlier lines printed may have been written.
pub fn lab<W: Write>(alloc: Global, script: &[u8], out: &mut W) -> io::Result<bool> {
    let names = names_of(alloc, script)?;
    let mut printer = Printer::new(alloc, Names::new(&names), out);
    watched(alloc, script, &mut printer)
}

/// Runs a script, line by line, and answers whether every line was done. The observer is notified of all that happens. The
/// first line that is refused, or expects what is not so, ends the script.
///
/// # Errors
/// `OutOfMemory` if memory ran out, else the error of the observer. Earlier notifications stay as they are.
pub fn watched<V: Watch>(alloc: Global, script: &[u8], watch: &mut V) -> io::Result<bool>
    ensures said { IfOk result (λ done. (end : Option LabValue) × HasDone (IsOfScript script.now done) V.starts V.takes V.notes (None, watch.old) (end, watch.new)) }
    ensures told { OnOk result ((end : Option LabValue) × IsToldOfLab V.starts V.takes V.notes (None, watch.old) (end, watch.new)) }
    ensures told_until { OnErr result ((end : Option LabValue) × IsToldUntil V.starts V.takes V.fails V.notes (None, watch.old) (end, watch.new)) }
{
    watched_by(alloc, script, 0, watch)
}

/// The same, with the SEED of the lines that name none.
///
/// # Errors
/// Those of [`watched`].
pub fn watched_by<V: Watch>(
    alloc: Global,
    script: &[u8],
    seed: u64,
    watch: &mut V,
) -> io::Result<bool>
    ensures said { IfOk result (λ done. (end : Option LabValue) × HasDone (IsOfScript script.now done) V.starts V.takes V.notes (None, watch.old) (end, watch.new)) }
    ensures told { OnOk result ((end : Option LabValue) × IsToldOfLab V.starts V.takes V.notes (None, watch.old) (end, watch.new)) }
    ensures told_until { OnErr result ((end : Option LabValue) × IsToldUntil V.starts V.takes V.fails V.notes (None, watch.old) (end, watch.new)) }
{
    let mut counting = Counting {
        counter: Counter::new(alloc),
        watch,
    };
    let outcome = run_script(alloc, script, seed, &mut counting);
    let Counting { counter, watch } = counting;
    drop(counter);
    // No effect at run time. The proof reads what the observer is from this use of the reference.
    let _ = &*watch;
    outcome
}

/// Runs a script, line by line, with an observer that counts.
fn run_script<V: Counted>(
    alloc: Global,
    script: &[u8],
    seed: u64,
    watch: &mut V,
) -> io::Result<bool>
    ensures said { IfOk result (λ done. (end : Option LabValue) × HasDone (IsOfScript script.now done) V.starts V.takes V.notes (None, watch.old) (end, watch.new)) }
    ensures told { OnOk result ((end : Option LabValue) × IsToldOfLab V.starts V.takes V.notes (None, watch.old) (end, watch.new)) }
    ensures told_until { OnErr result ((end : Option LabValue) × IsToldUntil V.starts V.takes V.fails V.notes (None, watch.old) (end, watch.new)) }
{
    let mut session = Session::new(alloc, seed);
    let lines = lines_of(alloc, script)?;
    for place in 0..lines.len() {
        let number = place.saturating_add(1);
        watch.at_line(number);
        match run_line(alloc, &mut session, lines[place], watch) {
            Ok(()) => {}
            Err(Stop::Refused(refusal)) => {
                watch.noticed(Notice::Refused(session.ending(number, refusal)))?;
                return Ok(false);
            }
            Err(Stop::Unmet(unmet)) => {
                watch.noticed(Notice::Unmet(unmet))?;
                return Ok(false);
            }
            Err(Stop::Failed(error)) => return Err(error),
        }
    }
    session.end(watch)
}

/// The lines of a script, in order.
fn lines_of(alloc: Global, script: &[u8]) -> Result<Vec<&[u8]>, AllocError>
    ensures { IfOk result (λ lines. map (λ line. line.now) lines.items ≡ lines_of script.now) }
{
    script.split(|byte| *byte == b'\n').collect(alloc)
}

/// Whether a line says nothing: it is empty but for white space, or a remark, of any bytes.
fn is_blank(line: &[u8]) -> bool
    ensures { result ≡ true → IsBlank line.now }
{
    matches!(line.trim_ascii_start().first(), None | Some(b'#'))
}

/// The words of a line, without the blanks around them and without a remark; of `say` all but a carriage return at its end.
fn words_of(text: &str) -> &str
    ensures { HasWords text.now result.now }
{
    let text = text.trim_ascii_start();
    match text.split_once(" #") {
        _ if text.starts_with("say ") => text.trim_end_matches('\r'),
        _ if text.starts_with('#') => "",
        Some((words, _)) => words.trim_ascii_end(),
        None => text.trim_ascii_end(),
    }
}

/// The same of bytes: no words if they are not UTF-8.
pub fn words_in(line: &[u8]) -> &str {
    words_of(str::from_utf8(line).unwrap_or(""))
}

/// Does what a line says. Then routers that have lost a route ask, if they ask by themselves.
fn run_line<V: Counted>(alloc: Global, session: &mut Session, line: &[u8], watch: &mut V) -> Outcome
    ensures done { OnOk result (HasDone (λ ts. Says (mode_of session.old) line.now ts (mode_of session.new)) V.starts V.takes V.notes (lab_in session.old.course, watch.old) (lab_in session.new.course, watch.new)) }
    ensures told { HasTold result V.starts V.takes V.fails V.notes (lab_in session.old.course, watch.old) (lab_in session.new.course, watch.new) }
{
    if is_blank(line) {
        return Ok(());
    }
    do_line(alloc, session, line, watch)?;
    session.ask(watch)
}

/// Does what a line with words says. A line that has to be refused by a name (`refused NAME`) is done exactly if it is refused by that name.
fn do_line<V: Counted>(alloc: Global, session: &mut Session, line: &[u8], watch: &mut V) -> Outcome
    ensures done { OnOk result (HasDone (λ ts. IsFollowed (mode_of session.old) line.now ts (mode_of session.new)) V.starts V.takes V.notes (lab_in session.old.course, watch.old) (lab_in session.new.course, watch.new)) }
    ensures told { HasTold result V.starts V.takes V.fails V.notes (lab_in session.old.course, watch.old) (lab_in session.new.course, watch.new) }
{
    let Ok(text) = str::from_utf8(line) else {
        return Err(Stop::from(BadLine::NoText));
    };
    let awaited = session.awaited.take();
    let outcome = session.obey(alloc, words_of(text), watch);
    match awaited {
        Some(name) => as_awaited(name, outcome),
        None => outcome,
    }
}

/// The outcome of a line that is to be refused by a name: done if it is so refused, unmet if it is done or refused by another.
fn as_awaited(name: RefusalName, outcome: Outcome) -> Outcome
    ensures refused { OnOk result (IsErrAnd outcome (λ stop. is_failure stop ≡ false)) }
    ensures failed { has_failed result ≡ has_failed outcome }
{
    match outcome {
        Ok(()) => Err(Stop::Unmet(Unmet::Refusal(name, None))),
        Err(Stop::Refused(why)) if why.is_named(name.word()) => Ok(()),
        Err(Stop::Refused(why)) => Err(Stop::Unmet(Unmet::Refusal(name, Some(why)))),
        Err(stop) => Err(stop),
    }
}

/// A script that runs.
#[derive(Drop)]
pub struct Session {
    /// The routers that are listed, until they start.
    nodes: Vec<Node>,
    /// What words may stand for.
    context: Context,
    /// The network, once its routers have started.
    course: Option<Course>,
    /// The name that the next line is to be refused by. It counts once.
    pub awaited: Option<RefusalName>,
    /// What is kept of each router, if routers ask by themselves.
    pub askers: Option<Vec<Asker>>,
}

impl Session {
    /// Nothing is listed yet.
    pub fn new(alloc: Global, seed: u64) -> Session
        ensures unstarted { lab_in result.course ≡ None }
        ensures unawaited { result.awaited ≡ None }
        ensures unasked { is_some result.askers ≡ false }
    {
        let mut context = Context::new(alloc);
        context.seed = seed;
        Session {
            nodes: Vec::new(alloc),
            context,
            course: None,
            awaited: None,
            askers: None,
        }
    }

    fn read<'a>(&mut self, words: &'a str) -> Result<Line<'a>, BadLine>
        ensures verb { IfOk result (λ line. IsVerbOf line.verb words.now) }
        ensures course { self.new.course ≡ self.old.course }
        ensures awaited { self.new.awaited ≡ self.old.awaited }
        ensures askers { self.new.askers ≡ self.old.askers }
    {
        if let Some(course) = &self.course {
            self.context.sent = course.sent();
            let lab = course.site.running();
            let routers = (0..lab.routers()).filter_map(|number| lab.router(number));
            self.context.latest = routers.map(|router| router.last()).max();
        }
        read_line(words, &mut self.context)
    }

    /// How the script ends at a line that is refused.
    pub fn ending(&self, line: usize, refusal: Refusal) -> Ending {
        let sent = self.course.as_ref().map_or(0, |course| course.sent());
        Ending {
            line,
            refusal,
            sent,
            sent_by_line: sent.saturating_sub(self.context.sent),
        }
    }

    /// The script has no more lines, and answers whether that may be: no line is still to be refused.
    fn end<V: Watch>(&self, watch: &mut V) -> io::Result<bool>
        ensures ended { IfOk result (λ done. EndsScript done (is_some self.now.awaited) V.notes watch.old watch.new) }
        ensures noted { OnOk result ((watch.new ≡ watch.old) ⊎ V.notes watch.old Prints watch.new) }
        ensures broken { OnErr result (V.notes watch.old Broken watch.new) }
    {
        let Some(name) = self.awaited else {
            return Ok(true);
        };
        watch.noticed(Notice::Unmet(Unmet::End(name)))?;
        Ok(false)
    }

    /// Does what the words of the next line say.
    pub fn obey<V: Counted>(&mut self, alloc: Global, words: &str, watch: &mut V) -> Outcome
        ensures done { OnOk result (HasDone (λ ts. IsObeyed words.now self.old.awaited (is_some self.old.askers) ts self.new.awaited (is_some self.new.askers)) V.starts V.takes V.notes (lab_in self.old.course, watch.old) (lab_in self.new.course, watch.new)) }
        ensures awaited { OnErr result (self.new.awaited ≡ self.old.awaited) }
        ensures askers { OnErr result (is_some self.new.askers ≡ is_some self.old.askers) }
        ensures told { HasTold result V.starts V.takes V.fails V.notes (lab_in self.old.course, watch.old) (lab_in self.new.course, watch.new) }
    {
        let line = match self.read(words) {
            Ok(line) => line,
            Err(bad) => return Err(Stop::from(bad)),
        };
        self.forget(alloc, &line);
        self.carry_out(alloc, &line, watch)
    }

    /// Does what a line says.
    fn carry_out<V: Counted>(&mut self, alloc: Global, line: &Line<'_>, watch: &mut V) -> Outcome
        ensures done { OnOk result (HasDone (Means line.entry.now) V.starts V.takes V.notes (lab_in self.old.course, watch.old) (lab_in self.new.course, watch.new)) }
        ensures awaited { OnOk result (self.new.awaited ≡ awaited_by line.entry.now.verb line.entry.now.refusal self.old.awaited) }
        ensures asks { OnOk result (is_some self.new.askers ≡ asks_by line.entry.now.verb (is_some self.old.askers)) }
        ensures err { OnErr result (self.new.awaited ≡ self.old.awaited) }
        ensures err_asks { OnErr result (is_some self.new.askers ≡ is_some self.old.askers) }
        ensures told { HasTold result V.starts V.takes V.fails V.notes (lab_in self.old.course, watch.old) (lab_in self.new.course, watch.new) }
    {
        match line.verb {
            Verb::Router(_) | Verb::Interface | Verb::Prefixes => self.list(alloc, line),
            Verb::Start => self.start(alloc, line.now, watch),
            Verb::Forge => self.deceive(alloc, line, watch),
            Verb::Bend => self.bend(line, watch),
            Verb::Await => {
                let _ = self.running()?;
                self.awaited = line.refusal;
                Ok(())
            }
            Verb::Asking(asks) => self.set_asking(alloc, asks),
            Verb::Act(action) => {
                let course = self.course.as_mut().ok_or(BadLine::BeforeStart)?;
                course.act(action, line, watch)
            }
        }
    }

    fn list(&mut self, alloc: Global, line: &Line<'_>) -> Outcome
        ensures course { self.new.course ≡ self.old.course }
        ensures awaited { self.new.awaited ≡ self.old.awaited }
        ensures askers { self.new.askers ≡ self.old.askers }
    {
        if self.course.is_some() {
            return Err(Stop::from(BadLine::AfterStart));
        }
        if matches!(line.verb, Verb::Router(_)) {
            self.context.name_next(alloc, line.text)?;
        }
        list(alloc, &mut self.nodes, line)
    }

    /// A network is checked, and its routers start at one time, which the observer is notified of.
    fn start<V: Watch>(&mut self, alloc: Global, now: Moment, watch: &mut V) -> Outcome
        ensures done { OnOk result (HasDone (λ ts. ts ≡ Starts now ∷ []) V.starts V.takes V.notes (lab_in self.old.course, watch.old) (lab_in self.new.course, watch.new)) }
        ensures awaited { self.new.awaited ≡ self.old.awaited }
        ensures askers { self.new.askers ≡ self.old.askers }
        ensures told { HasTold result V.starts V.takes V.fails V.notes (lab_in self.old.course, watch.old) (lab_in self.new.course, watch.new) }
    {
        if self.course.is_some() {
            return Err(Stop::from(BadLine::SecondStart));
        }
        let nodes = mem::replace(&mut self.nodes, Vec::new(alloc));
        let moments = vec![in alloc; now; nodes.len()]?;
        let network = NetConfig::check(alloc, nodes).map_err(Refusal::Network)?;
        let lab = Lab::cold(alloc, network, moments.as_slice())?;
        watch.started(lab.running(), now)?;
        self.course = Some(Course::new(alloc, lab));
        Ok(())
    }

    /// A forged Response arrives. If it is refused, the network stays verified.
    fn deceive<V: Watch>(&mut self, alloc: Global, line: &Line<'_>, watch: &mut V) -> Outcome
        ensures done { OnOk result (HasDone (λ ts. (bytes : List ℕ) × IsLie line.entry.now.router (arrival_by line.entry.now bytes) ts) V.starts V.takes V.notes (lab_in self.old.course, watch.old) (lab_in self.new.course, watch.new)) }
        ensures awaited { self.new.awaited ≡ self.old.awaited }
        ensures askers { self.new.askers ≡ self.old.askers }
        ensures told { HasTold result V.starts V.takes V.fails V.notes (lab_in self.old.course, watch.old) (lab_in self.new.course, watch.new) }
    {
        let bytes = line.bytes(alloc)?;
        let arrival = line.arrival(&bytes);
        self.running()?.check_lie(line.router, &arrival)?;
        self.give_up();
        let course = self.course.as_mut().ok_or(BadLine::BeforeStart)?;
        course.lie(line.router, arrival, None, watch)
    }

    /// A router has another horizon from now on, and the network is verified no longer.
    fn bend<V: Watch>(&mut self, line: &Line<'_>, watch: &mut V) -> Outcome
        ensures done { OnOk result (HasDone (IsNote) V.starts V.takes V.notes (lab_in self.old.course, watch.old) (lab_in self.new.course, watch.new)) }
        ensures awaited { self.new.awaited ≡ self.old.awaited }
        ensures askers { self.new.askers ≡ self.old.askers }
        ensures told { HasTold result V.starts V.takes V.fails V.notes (lab_in self.old.course, watch.old) (lab_in self.new.course, watch.new) }
    {
        let routers = self.running()?.routers();
        check_named(Some(line.router), routers, LabError::NoSuchRouter)?;
        self.give_up();
        let course = self.course.as_mut().ok_or(BadLine::BeforeStart)?;
        course.bend(line, watch)
    }

    /// The network, if its routers have started.
    fn running(&self) -> Result<&Network, BadLine> {
        let course = self.course.as_ref().ok_or(BadLine::BeforeStart)?;
        Ok(course.site.running())
    }

    /// The network is verified no longer.
    fn give_up(&mut self)
        ensures awaited { self.new.awaited ≡ self.old.awaited }
        ensures askers { self.new.askers ≡ self.old.askers }
        ensures course { lab_in self.new.course ≡ lab_in self.old.course }
    {
        if let Some(mut course) = self.course.take() {
            course.site = course.site.lied();
            self.course = Some(course);
        }
    }
}
