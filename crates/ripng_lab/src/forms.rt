//! The forms of lines, as docs/SCRIPTS.md has them: the words of each, what a line of it does, and why a line matches no form.

ghost use Rattle.std.specs.Prelude.{◌≡◌, map};
ghost use Rattle.ripng_lab.specs.Common.{first_word, forms};

/// What a line does.
#[derive(Clone, Copy, Debug, PartialEq, Eq)]
pub enum Verb {
    /// It lists a router, before the start, and whether that is quiet.
    Router(bool),
    /// It lists an interface of the last router, or prefixes that this owns.
    Interface,
    Prefixes,
    /// All routers start.
    Start,
    /// A forged Response arrives.
    Forge,
    /// A router is no router of RIPng from now on.
    Bend,
    /// The next line is to be refused.
    Await,
    /// Routers ask by themselves from now on, or no longer.
    Asking(bool),
    /// It is about a network that runs.
    Act(Action),
}

/// What is done with a network that runs.
#[derive(Clone, Copy, Debug, PartialEq, Eq)]
pub enum Action {
    Step(Step),
    /// At each interface on a link.
    AtLink(Step),
    Arrive,
    Tell,
    Hear,
    Round,
    Rounds,
    Phases,
    /// Time passes.
    Run,
    /// A link has a delay and a loss from now on.
    Carry,
    Lose,
    /// A router is silent from now on, or speaks again.
    Silent(bool),
    /// A link is cut from now on, or is mended.
    Cut(bool),
    PrintAll,
    PrintRouter,
    PrintRoute,
    PrintAllSent,
    PrintSent,
    Count,
    Say,
    Expect,
    Path,
    ExpectPath,
    ExpectSettled,
    ExpectHealed,
}

/// An event of one router.
#[derive(Clone, Copy, Debug, PartialEq, Eq)]
pub enum Step {
    Deliver,
    Tick,
    Restart,
    Shutdown,
    Down,
    Up,
    Cost,
    Gain,
    Drop,
}

/// The forms. A word in capitals is a part, and K at the end is one word or more. If a line leaves several forms at the same word, the
/// first is the one that a hint names.
pub const FORMS: [(&str, Verb); 59] = [
    ("router NAME", Verb::Router(false)),
    ("router quiet NAME", Verb::Router(true)),
    ("router quiet", Verb::Router(true)),
    ("router", Verb::Router(false)),
    ("iface ADDR COST MTU LINK", Verb::Interface),
    ("iface ADDR COST LINK", Verb::Interface),
    ("own PREFIX TAG times TIMES", Verb::Prefixes),
    ("own PREFIX TAG", Verb::Prefixes),
    ("cold NOW", Verb::Start),
    ("deliver N R I NOW", Verb::Act(Action::Step(Step::Deliver))),
    (
        "stranger R I NOW SOURCE PORT HOP TO HEX",
        Verb::Act(Action::Arrive),
    ),
    ("ask R I NOW SOURCE PORT ASKED", Verb::Act(Action::Arrive)),
    ("liar R I NOW SOURCE HEX", Verb::Forge),
    ("liar R I NOW SOURCE PREFIX HOPS", Verb::Forge),
    ("tick R NOW WORD", Verb::Act(Action::Step(Step::Tick))),
    ("tick R NOW", Verb::Act(Action::Step(Step::Tick))),
    ("tell R NOW WORD but K", Verb::Act(Action::Tell)),
    ("tell R NOW WORD", Verb::Act(Action::Tell)),
    ("tell R NOW but K", Verb::Act(Action::Tell)),
    ("tell R NOW", Verb::Act(Action::Tell)),
    ("hear but K", Verb::Act(Action::Hear)),
    ("hear", Verb::Act(Action::Hear)),
    ("restart R NOW", Verb::Act(Action::Step(Step::Restart))),
    ("shutdown R NOW", Verb::Act(Action::Step(Step::Shutdown))),
    ("cost R I NOW COST", Verb::Act(Action::Step(Step::Cost))),
    ("gain R NOW PREFIX TAG", Verb::Act(Action::Step(Step::Gain))),
    ("drop R NOW PREFIX", Verb::Act(Action::Step(Step::Drop))),
    ("round NOW", Verb::Act(Action::Round)),
    ("rounds ROUNDS NOW GAP", Verb::Act(Action::Rounds)),
    ("phases PHASES SEED", Verb::Act(Action::Phases)),
    ("phases PHASES", Verb::Act(Action::Phases)),
    ("link LINK DELAY LOSS", Verb::Act(Action::Carry)),
    ("link LINK DELAY", Verb::Act(Action::Carry)),
    ("run UNTIL SEED", Verb::Act(Action::Run)),
    ("run UNTIL", Verb::Act(Action::Run)),
    ("horizon R HORIZON", Verb::Bend),
    ("asking off", Verb::Asking(false)),
    ("asking", Verb::Asking(true)),
    ("silent R", Verb::Act(Action::Silent(true))),
    ("speaks R", Verb::Act(Action::Silent(false))),
    ("cut LINK", Verb::Act(Action::Cut(true))),
    ("mend LINK", Verb::Act(Action::Cut(false))),
    ("down LINK NOW", Verb::Act(Action::AtLink(Step::Down))),
    ("up LINK NOW", Verb::Act(Action::AtLink(Step::Up))),
    ("costs LINK NOW COST", Verb::Act(Action::AtLink(Step::Cost))),
    ("lose N", Verb::Act(Action::Lose)),
    ("print R PREFIX", Verb::Act(Action::PrintRoute)),
    ("print R", Verb::Act(Action::PrintRouter)),
    ("print", Verb::Act(Action::PrintAll)),
    ("sent N", Verb::Act(Action::PrintSent)),
    ("sent", Verb::Act(Action::PrintAllSent)),
    ("counts", Verb::Act(Action::Count)),
    ("say TEXT", Verb::Act(Action::Say)),
    ("expect R PREFIX METRIC", Verb::Act(Action::Expect)),
    ("expect path R ADDR FATE", Verb::Act(Action::ExpectPath)),
    ("expect settled BY", Verb::Act(Action::ExpectSettled)),
    ("expect healed", Verb::Act(Action::ExpectHealed)),
    ("path R ADDR", Verb::Act(Action::Path)),
    ("refused REFUSAL", Verb::Await),
];

/// Why a line is malformed, or out of place.
#[derive(Clone, Copy, Debug, PartialEq, Eq)]
pub enum BadLine {
    /// It is not UTF-8.
    NoText,
    /// No line begins so.
    Unknown,
    /// A word does not fit the form of that number among all. Its place is counted from 0 for the first word.
    Word {
        form: usize,
        place: usize,
        wrong: Wrong,
    },
    /// It comes before `cold`, and must come after it.
    BeforeStart,
    /// It comes after `cold`, and must come before it.
    AfterStart,
    /// It is a second `cold`.
    SecondStart,
    /// It comes before the first router.
    NoRouter,
    /// A row of prefixes goes on past the last prefix of that length.
    PastLastPrefix,
}

/// What is wrong with a word.
#[derive(Clone, Copy, Debug, PartialEq, Eq)]
pub enum Wrong {
    /// It cannot stand for its part.
    Differs,
    /// The line ends before it.
    Missing,
    /// The form ends before it.
    TooMany,
    /// No router has the name.
    NoName,
    /// It counts from the last time, and no line has named one.
    NoTime,
    /// Its time is past the last moment, 2^60 milliseconds.
    TooLate,
    /// It counts from the last datagram, and fewer were sent.
    NotSent,
}

/// The forms, in order.
pub fn forms() -> &'static [(&'static str, Verb)]
    ensures { map (λ form. (form.0.now, form.1)) result.now ≡ forms }
{
    &FORMS
}

/// The first word of a line or of a form.
pub fn first_word(text: &str) -> &str
    ensures { result.now ≡ first_word text.now }
{
    let (word, _) = text.split_once(' ').unwrap_or((text, ""));
    word
}

/// The words of a form, by its number among all.
pub fn words_of_form(form: usize) -> &'static str {
    FORMS.get(form).map_or("", |(words, _)| words)
}

/// What a part is, in the words after `is`; nothing of a word that stands for itself.
pub fn meaning(part: &str) -> &'static str {
    match part {
        "NAME" => "a letter, and then letters, digits, - and _, but not quiet",
        "ADDR" | "SOURCE" => "an IPv6 address, like fe80::1",
        "COST" => "a number from 1 to 15",
        "MTU" => "a number from 1280 to 65535",
        "LINK" => "the number of a link, from 0 to 4294967295",
        "PREFIX" => "a prefix, like 2001:db8::/32",
        "TAG" | "PORT" => "a number from 0 to 65535",
        "TIMES" => "a number from 1 to 1024",
        "NOW" | "UNTIL" | "BY" =>
            "a number of milliseconds, up to 2^60, or + and such a number since the last moment",
        "N" => "the number of a datagram, from 0, or last, or last-K",
        "K" => "the number of a datagram that is lost, from 0 for the first",
        "R" => "a router: its number, from 0, or its name",
        "I" => "the number of an interface of the router, from 0",
        "HOP" => "a hop limit, from 0 to 255",
        "TO" => "group, or peer",
        "HOPS" => "a metric from 1 to 16",
        "HEX" => "bytes as pairs of hexadecimal digits, or - for none",
        "ASKED" => "a prefix, or all",
        "WORD" => "a number from 0 to 4294967295",
        "ROUNDS" => "how many rounds: a number from 1 to 1000",
        "GAP" => "a number of milliseconds, so few that the last round is not past 2^60",
        "PHASES" => "how many phases: a number from 1 to 1000",
        "SEED" => "a number from 0 to 18446744073709551615",
        "METRIC" => "a number from 1 to 16, or none",
        "DELAY" => "a number of milliseconds, from 0 to 60000",
        "LOSS" => "how many of a hundred are lost: a number from 0 to 100",
        "FATE" => "arrives, loops or lost",
        "HORIZON" => "none, split, or poison, which is RIPng's",
        "REFUSAL" => "the name of a refusal, like NotOwned, or BadLine",
        "TEXT" => "the text to print",
        _ => "",
    }
}
