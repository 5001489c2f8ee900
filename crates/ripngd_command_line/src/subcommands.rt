//! The subcommands, with their options and arguments.

ghost use Rattle.std.specs.Prelude.{◌≡◌, IfOk, Some, pos};
ghost use Rattle.clap.specs.declared.builder.value_parser.ValueParser.TheVariants as parsers;
ghost use Rattle.ripngd_command_line.specs.CommandLine.{IsCommand, check_command, ctl_command, lab_command, ripngd, run_command, show_command, table_command};

use crate::help;
use clap::{Arg, Command, arg, value_parser};
use std::alloc::{AllocError, Global};

/// `show [--pcap] HEX`.
fn show<'a>(alloc: Global) -> Result<Command<'a>, AllocError>
    ensures { IfOk result (λ c. IsCommand c show_command) }
{
    Command::new(alloc, "show")
        .about("Decode a datagram, given as hexadecimal digits, or those of a capture")
        .after_help(help::SHOW)
        .arg(arg!(in alloc; --pcap
            "Decode the datagrams of RIPng in a file of pcap or pcapng, whose name stands for HEX"))?
        .arg(arg!(in alloc; <HEX> "Its bytes, two digits for each, in upper or lower case"))
}

/// `check CONFIG`.
fn check<'a>(alloc: Global) -> Result<Command<'a>, AllocError>
    ensures { IfOk result (λ c. IsCommand c check_command) }
{
    Command::new(alloc, "check")
        .about("Check a configuration")
        .after_help(help::CHECK)
        .arg(arg!(in alloc; <CONFIG> "The file of the configuration"))
}

/// `lab [--trace] [--explain] [--changes] [--pcap FILE] [--csv SECONDS] [--by COLUMN] [--seeds A..B] [--against EXERCISE] [--count] SCRIPT`.
fn lab<'a>(alloc: Global) -> Result<Command<'a>, AllocError>
    ensures { IfOk result (λ c. IsCommand c lab_command) }
{
    Command::new(alloc, "lab")
        .about("Simulate the network of routers that a script describes")
        .after_help(help::LAB)
        .arg(arg!(in alloc; --trace
            "Print each event as a line of JSON, in place of what the script prints"))?
        .arg(arg!(in alloc; --explain
            "Print each event as a line of English, beside what the script prints"))?
        .arg(arg!(in alloc; --changes
            "The same, without ticks and arrivals that change no forwarding table"))?
        .arg(arg!(in alloc; --pcap <FILE>
            "Write each datagram to FILE, a capture for Wireshark, beside what the script prints"))?
        .arg(counted(arg!(in alloc; --csv <SECONDS>
            "Print what was sent in each interval of so many seconds, as lines of CSV, in place of what the script prints")))?
        .arg(arg!(in alloc; --by <COLUMN>
            "With --csv: a line for each router and interval, where COLUMN is `router`"))?
        .arg(arg!(in alloc; --seeds <RANGE>
            "Run it with each seed of RANGE, as 1..100, and print a line of numbers for each"))?
        .arg(arg!(in alloc; --against <EXERCISE>
            "Refuse SCRIPT unless it is EXERCISE, with one word for each `?`"))?
        .arg(arg!(in alloc; --count
            "Print at the end how many expectations were met"))?
        .arg(arg!(in alloc; <SCRIPT> "The file of the script"))
}

/// An option with a number from 1 to 4,294,967,295 as its value.
fn counted<'a>(option: Arg<'a>) -> Arg<'a>
    ensures { result ≡ record option.entry { value_parser = Some (parsers.Signed (pos 1) (pos 4294967295)) } }
{
    option.value_parser(value_parser!(u32).range(1..))
}

/// `run [-q] [-d] [-t TAG] [-R FILE] [--append] [--turns N] [--seconds N] [--control PATH] CONFIG`.
fn run<'a>(alloc: Global) -> Result<Command<'a>, AllocError>
    ensures { IfOk result (λ c. IsCommand c run_command) }
{
    Command::new(alloc, "run")
        .about("Run one router over UDP on loopback")
        .after_help(help::RUN)
        .arg(arg!(in alloc; quiet: -'q' "Send no Requests and no updates, and answer no router"))?
        .arg(arg!(in alloc; debug: -'d'
            "Write each refused datagram and entry to standard error, and counts at the end"))?
        .arg(
            arg!(in alloc; tag: -'t' <TAG> "The route tag of owned prefixes that have none in CONFIG")
                .value_parser(value_parser!(u16))
                .default_value("0"),
        )?
        .arg(arg!(in alloc; log: -'R' <FILE>
            "Write a line to FILE for each change of a route; FILE is emptied first, unless --append is given"))?
        .arg(arg!(in alloc; --append
            "Keep the contents of the FILE of -R, and add a line `start`"))?
        .arg(counted(arg!(in alloc; --turns <N>
            "Exit after N turns, each with one datagram at most, and print the forwarding table"))
        .default_value("4294967295"))?
        .arg(counted(arg!(in alloc; --seconds <N>
            "Exit after N seconds in the same way, if that comes first")))?
        .arg(arg!(in alloc; --control <PATH>
            "Create a Unix socket at PATH, and obey the commands of `ctl` there"))?
        .arg(arg!(in alloc; <CONFIG> "The file of its configuration"))
}

/// `ctl [--json] PATH COMMAND [WHAT] [VALUE] [PORT]`.
fn ctl<'a>(alloc: Global) -> Result<Command<'a>, AllocError>
    ensures { IfOk result (λ c. IsCommand c ctl_command) }
{
    Command::new(alloc, "ctl")
        .about("Ask or change a running router")
        .after_help(help::CTL)
        .arg(arg!(in alloc; --json "With `status`: print it as a line of JSON"))?
        .arg(arg!(in alloc; <PATH> "The socket that `run --control` listens at"))?
        .arg(arg!(in alloc; <COMMAND> "The command, such as `routes` or `cost`"))?
        .arg(arg!(in alloc; [WHAT] "An interface or a prefix"))?
        .arg(arg!(in alloc; [VALUE] "A cost, a tag, or the address of a neighbor"))?
        .arg(arg!(in alloc; [PORT] "The port of a neighbor"))
}

/// `table LOG`.
fn table<'a>(alloc: Global) -> Result<Command<'a>, AllocError>
    ensures { IfOk result (λ c. IsCommand c table_command) }
{
    Command::new(alloc, "table")
        .about("Print the forwarding table that a log makes, also of a running router")
        .after_help(help::TABLE)
        .arg(arg!(in alloc; <LOG> "The file that `run -R` writes it to"))
}

/// The whole command line.
pub(crate) fn command<'a>(alloc: Global) -> Result<Command<'a>, AllocError>
    ensures { IfOk result (λ c. IsCommand c ripngd) }
{
    Command::new(alloc, "ripngd")
        .about("A router for RIPng, the distance vector protocol of IPv6 (RFC 2080)")
        .after_help(help::PROGRAM)
        .version(help::VERSION)
        .subcommand_required(true)
        .subcommand(show(alloc)?)?
        .subcommand(check(alloc)?)?
        .subcommand(lab(alloc)?)?
        .subcommand(run(alloc)?)?
        .subcommand(table(alloc)?)?
        .subcommand(ctl(alloc)?)
}
