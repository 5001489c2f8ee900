//! The texts at the end of `help`: one for the program, and a description and an example for each subcommand. Also the version.

/// The version of the program, which `--version` prints.
pub const VERSION: &str = "0.1.0";

pub(crate) const PROGRAM: &str = "\
`ripngd help COMMAND` describes a command, with an example.

Exit status: 0 done; 1 the input was refused, and standard output says why;
2 usage error; 3 a file, a port, a socket or memory failed, and standard error
says which.";

pub(crate) const SHOW: &str = "\
The first line is `request entries N` or `response entries N`. A line follows
for each entry, numbered from 0: its prefix, route tag and metric, or its next
hop. Bytes that are no RIPng datagram print `refused NR NAME` instead, and the
exit status is 1.
With `--pcap FILE` each datagram of RIPng in a capture has a line with its frame,
time, addresses, ports and hop limit before those, and `refused NR NAME` says
which test of a router it would fail. If the file is damaged, the last line says
where, and the exit status is 1.

Example:
  ripngd show 0201000020010db800000000000000000000000000002001";

pub(crate) const CHECK: &str = "\
A configuration is a TOML text. If it is valid, one line counts its interfaces,
prefixes and peers. If not, one line has the first fault and its key, and the
exit status is 1. For a fault without a key, standard error has the interface,
the prefix, or the line and column.

Example:
  ripngd check examples/east.toml";

pub(crate) const LAB: &str = "\
The lines of a script make routers and links, and then deliver datagrams, let
time pass, and change costs and prefixes. There are no sockets and no clock, so
each run of a script gives the same. Its lines `print` and `sent` print. The
first line that is refused ends it, with exit status 1.
With `--explain` a line of English for each event says what a router received,
what it did, and why.
With `--pcap FILE` all datagrams are written to a capture for Wireshark, with an
interface for each link. No other option goes with it.
With `--csv SECONDS` a header and then a line for each interval of so many
seconds say what was sent in it, by whom with `--by router`.
With `--seeds A..B` the script is run with each seed from A to B, which its
lines `run` and `phases` take where they name none. A line of numbers for each
begins with the seed and its status; the exit status is 1 if one is refused.
With `--against` and `--count` a script is marked, and there is no `--trace`,
`--explain` or `--changes`.

Example:
  ripngd lab --explain examples/line.lab";

pub(crate) const RUN: &str = "\
Each interface of the router is a socket on 127.0.0.1, and so is each neighbor.
It learns routes from its neighbors and advertises its own, until it has made
its turns, its seconds have passed, or a signal ends it. In a turn it processes
at most one datagram, and then does what is due. After the last turn it prints
its forwarding table. Standard error says what it has lost. With `-d` it also
has each datagram and entry that was refused, and the counts at the end.
With `--control` it obeys commands while it runs (`help ctl`).

Example, of two routers that learn from each other:
  ripngd run --turns 400 -R east.log examples/east.toml &
  ripngd run --turns 400 examples/west.toml";

pub(crate) const CTL: &str = "\
The answer of the router is printed. The commands are
  routes                 print its routes, with their gateways and timers
  table                  print its forwarding table
  lookup ADDRESS         print the longest match of an address in that table
  counts                 print what was received, sent, refused and lost
  neighbors              print what was received from each neighbor, and when
  status                 print its interfaces, its clock, how many routes it
                         forwards by, its counts and its neighbors
  status --json          print the same as a line of JSON; so does `status json`
  cost INTERFACE COST    set the cost of an interface
  gain PREFIX TAG        own a prefix
  drop PREFIX            withdraw an owned prefix
  peer INTERFACE ADDRESS PORT
                         add a neighbor at that port of 127.0.0.1
  unpeer INTERFACE ADDRESS
                         remove a neighbor
  link down INTERFACE    withdraw what was learned on an interface
  link up INTERFACE      ask the neighbors on an interface for their tables
  stop                   tell neighbors that its routes end, and exit as after
                         its last turn
  stop now               exit so, and tell nobody
A command that is refused prints `refused NR NAME`, with exit status 1. If no
router listens at PATH, the exit status is 3.

Example, of a router that was started with `run --control east.sock`:
  ripngd ctl east.sock routes";

pub(crate) const TABLE: &str = "\
The forwarding table that the changes of the log make is printed, a line for
each prefix, as `run` prints it at its end. The router may still run: an
incomplete last line is ignored. In a log with `--append`, only the part after
the last line `start` counts. If a line is malformed, its number is printed
instead, and the exit status is 1.

Example:
  ripngd table east.log";
