//! A parsed command line, and its faults that clap does not find.

ghost use Rattle.std.specs.Prelude.{◌↔◌, IsSome};
ghost use Rattle.ripngd_command_line.specs.Asked.{IsCapturedBadly, IsMisused, IsNumberedBadly, IsSweptBadly};

/// What the words of a command line ask for.
#[derive(Clone, Copy, Debug, PartialEq, Eq)]
pub enum Job<'a> {
    /// A subcommand without a capture, lines of numbers or seeds.
    Ask(Ask<'a>),
    /// `show --pcap FILE`: decodes the datagrams of a capture.
    ShowCapture(&'a str),
    /// `lab --pcap FILE SCRIPT`: runs a script, and makes a capture of it.
    LabCapture(Capturing<'a>),
    /// `lab --csv SECONDS [--by router] SCRIPT`: runs a script, and prints what was sent in each interval of time.
    LabNumbers(Numbering<'a>),
    /// `lab --seeds A..B SCRIPT`: runs a script with each of these seeds, and prints a line of numbers for each.
    LabSeeds(Sweep<'a>),
}

/// How `lab` makes a capture.
#[derive(Clone, Copy, Debug, PartialEq, Eq)]
pub struct Capturing<'a> {
    /// The file that gets the capture.
    pub capture: &'a str,
    /// The file of the script.
    pub script: &'a str,
    /// Whether another option of `lab` is given, too.
    pub mixed: bool,
}

/// How `lab` writes lines of numbers.
#[derive(Clone, Copy, Debug, PartialEq, Eq)]
pub struct Numbering<'a> {
    /// The file of the script.
    pub script: &'a str,
    /// The length of an interval in seconds, at least 1, if a number is given.
    pub seconds: Option<u32>,
    /// What has a line of its own in each interval, if something has: only `router` is known.
    pub by: Option<&'a str>,
    /// Whether another option of `lab` is given, too.
    pub mixed: bool,
    /// Whether the number was written with a sign.
    pub signed: bool,
}

/// How `lab` runs a script with one seed after another.
#[derive(Clone, Copy, Debug, PartialEq, Eq)]
pub struct Sweep<'a> {
    /// The file of the script.
    pub script: &'a str,
    /// The seeds as they are written.
    pub range: &'a str,
    /// The seeds, if that text has some.
    pub seeds: Option<Seeds>,
    /// Whether another option of `lab` is given, too.
    pub mixed: bool,
}

/// Seeds, from the first to the last, which is no less.
#[derive(Clone, Copy, Debug, PartialEq, Eq)]
pub struct Seeds {
    /// The first seed.
    pub first: u64,
    /// The last seed.
    pub last: u64,
}

/// A subcommand with its arguments, whose texts are words of the command line.
#[derive(Clone, Copy, Debug, PartialEq, Eq)]
pub enum Ask<'a> {
    /// `show HEX`: decodes one datagram, given as hexadecimal digits.
    Show(&'a str),
    /// `check CONFIG`: checks a configuration.
    Check(&'a str),
    /// `lab SCRIPT`: runs a script.
    Lab(&'a str),
    /// `lab [--against EXERCISE] [--count] SCRIPT`, with one of both at least: runs it, and marks it.
    Mark(Marking<'a>),
    /// `lab --trace SCRIPT`: runs it, and prints each event as JSON.
    Trace(&'a str),
    /// `lab --explain SCRIPT`: runs it, and prints each event in English.
    Explain(&'a str),
    /// `lab --changes SCRIPT`: the same, without ticks and arrivals that change no forwarding table.
    Changes(&'a str),
    /// `run [-q] [-d] [-t TAG] [-R FILE] [--append] [--turns N] [--seconds N] [--control PATH] CONFIG`: runs one router.
    Run(Order<'a>),
    /// `ctl [--json] PATH COMMAND [WHAT] [VALUE] [PORT]`: sends a command to a running router.
    Ctl(Question<'a>),
    /// `table LOG`: prints the forwarding table that a log makes.
    Table(&'a str),
}

/// How `lab` marks a script.
#[derive(Clone, Copy, Debug, PartialEq, Eq)]
pub struct Marking<'a> {
    /// The file of the script.
    pub script: &'a str,
    /// The file of the exercise that it is to solve, if there is one.
    pub exercise: Option<&'a str>,
    /// Whether a line says how many expectations were met.
    pub counts: bool,
}

/// The options of `run`.
#[derive(Clone, Copy, Debug, PartialEq, Eq)]
pub struct Order<'a> {
    /// Whether it is passive: it sends no Requests and no updates, and answers no router.
    pub quiet: bool,
    /// Whether standard error gets a line for each refused datagram and entry, and the counts at the end.
    pub debug: bool,
    /// The route tag of owned prefixes that have none in the configuration.
    pub tag: u16,
    /// The file of the log, `-` for standard output.
    pub log: Option<&'a str>,
    /// Whether the log is appended to that file, and the file not emptied.
    pub append: bool,
    /// The most turns it makes, at least 1.
    pub turns: u32,
    /// After how many seconds it ends, at least 1, if a number is given.
    pub seconds: Option<u32>,
    /// The path of its control socket, if it has one.
    pub control: Option<&'a str>,
    /// The file of its configuration.
    pub config: &'a str,
    /// Whether one of the numbers was written with a sign.
    pub signed: bool,
}

/// The arguments of `ctl`: a command of up to four words.
#[derive(Clone, Copy, Debug, PartialEq, Eq)]
pub struct Question<'a> {
    /// The path of the router's control socket.
    pub socket: &'a str,
    /// The name of the command.
    pub command: &'a str,
    /// An interface or a prefix; `json`, if `--json` is given.
    pub what: Option<&'a str>,
    /// A cost, a tag, or the address of a neighbor.
    pub value: Option<&'a str>,
    /// The port of a neighbor.
    pub port: Option<&'a str>,
    /// Whether `--json` is given with another command than `status`, or with a word behind it.
    pub mixed: bool,
}

/// The message for `--append` without a file.
const APPEND_NEEDS_A_FILE: &str = "\
error: '--append' goes with '-R FILE', where FILE is not '-'

For more information, try '--help'.
";

/// The message for a number with a sign.
const NUMBERS_HAVE_NO_SIGN: &str = "\
error: the number of an option is decimal digits alone, without a sign

For more information, try '--help'.
";

/// The message for `--pcap` with another option of `lab`.
const CAPTURES_ALONE: &str = "\
error: '--pcap' goes with no other option of 'lab'

For more information, try '--help'.
";

/// The message for a capture that would be written over its script.
const CAPTURES_ELSEWHERE: &str = "\
error: the FILE of '--pcap' is SCRIPT itself

For more information, try '--help'.
";

/// The message for `--json` beside what it does not go with.
const JSON_OF_STATUS: &str = "\
error: '--json' goes with 'ctl PATH status' alone

For more information, try '--help'.
";

/// The message for `--csv` or `--by` with another option of `lab`.
const NUMBERS_ALONE: &str = "\
error: '--csv SECONDS' goes with no other option of 'lab' than '--by router'

For more information, try '--help'.
";

/// The message for `--by` without `--csv`.
const NUMBERS_NEED_SECONDS: &str = "\
error: '--by router' goes with '--csv SECONDS'

For more information, try '--help'.
";

/// The message for lines of numbers by something else than `router`.
const NUMBERS_BY_ROUTER: &str = "\
error: the COLUMN of '--by' is 'router'

For more information, try '--help'.
";

/// The message for `--seeds` with another option of `lab`.
const SEEDS_ALONE: &str = "\
error: '--seeds' goes with no other option of 'lab'

For more information, try '--help'.
";

/// The message for `--seeds` with a text that names no seeds.
const SEEDS_IN_ORDER: &str = "\
error: the RANGE of '--seeds' is two numbers of 64 bits as in '1..100', the second no less than the first

For more information, try '--help'.
";

/// The message for a fault of the command line, if there is one: `--append` without a file, a number with a sign, `--json` with another
/// command than `status`, a capture beside other options, or in place of its script, lines of numbers beside other options, without an
/// interval, or by something else than `router`, or seeds beside other options, or none.
pub fn misuse_of(job: Job<'_>) -> Option<&'static str>
    ensures { IsSome result ↔ IsMisused job.entry }
{
    match job {
        Job::Ask(asked) => misuse_of_ask(asked),
        Job::LabCapture(capturing) => misuse_of_capture(capturing),
        Job::LabNumbers(numbering) => misuse_of_numbers(numbering),
        Job::LabSeeds(sweep) => misuse_of_seeds(sweep),
        Job::ShowCapture(_) => None,
    }
}

fn misuse_of_ask(asked: Ask<'_>) -> Option<&'static str>
    ensures { IsSome result ↔ IsMisused (Job.Ask asked.entry) }
{
    match asked {
        Ask::Run(order) => misuse_of_run(order),
        Ask::Ctl(question) if question.mixed => Some(JSON_OF_STATUS),
        _ => None,
    }
}

fn misuse_of_run(order: Order<'_>) -> Option<&'static str>
    ensures { IsSome result ↔ IsMisused (Job.Ask (Ask.Run order.entry)) }
{
    if order.append && matches!(order.log, None | Some("-")) {
        Some(APPEND_NEEDS_A_FILE)
    } else if order.signed {
        Some(NUMBERS_HAVE_NO_SIGN)
    } else {
        None
    }
}

fn misuse_of_capture(capturing: Capturing<'_>) -> Option<&'static str>
    ensures { IsSome result ↔ IsCapturedBadly capturing.entry }
{
    if capturing.mixed {
        Some(CAPTURES_ALONE)
    } else if capturing.capture == capturing.script {
        Some(CAPTURES_ELSEWHERE)
    } else {
        None
    }
}

fn misuse_of_numbers(numbering: Numbering<'_>) -> Option<&'static str>
    ensures { IsSome result ↔ IsNumberedBadly numbering.entry }
{
    if numbering.mixed {
        Some(NUMBERS_ALONE)
    } else if numbering.seconds.is_none() {
        Some(NUMBERS_NEED_SECONDS)
    } else if numbering.signed {
        Some(NUMBERS_HAVE_NO_SIGN)
    } else if matches!(numbering.by, None | Some("router")) {
        None
    } else {
        Some(NUMBERS_BY_ROUTER)
    }
}

fn misuse_of_seeds(sweep: Sweep<'_>) -> Option<&'static str>
    ensures { IsSome result ↔ IsSweptBadly sweep.entry }
{
    if sweep.mixed {
        Some(SEEDS_ALONE)
    } else if sweep.seeds.is_none() {
        Some(SEEDS_IN_ORDER)
    } else {
        None
    }
}
