//! Scripts of a laboratory: whole networks of routers, and what happens in them, as lines of text.
//!
//! The way of a line:
//!
//! ```text
//! text --forms--> Line --Session::obey--> Course::act --Lab::step_watched--> Watch: what happened, what was noticed
//!      \--no form fits--> BadLine --hints--> what it should have been
//! ```
//!
//! | what | where |
//! |---|---|
//! | which words a line may have, and what they stand for | forms.rt, line.rt, context.rt |
//! | routers that are listed, until they start | listing.rt, script.rt |
//! | what a line makes happen: one event, or a plan of many, or time that passes by itself | course.rt, plan.rt, moving.rt, passing.rt |
//! | routers that ask for tables, or advertise by another rule | asking.rt, pace.rt, horizon.rt |
//! | what is expected, and whether it is so | expecting.rt, healing.rt, exercise.rt, marking.rt |
//! | what is counted | counting.rt, counted.rt |
//! | what is printed | printer.rt |
//! | why a script ends before its last line | stop.rt, hints.rt |
//!
//! A network that is lawful lives in a `Lab` of `ripng_world`, which keeps all that is proved of networks. One forged Response, or one
//! router that is no router of RIPng, makes it a `Running`, of which only single steps are promised: `Site` in course.rt has both.
//! `specs/Doing` says what each form of a line means as events, and `specs/Scripts` what a whole script then is.
#![tactic(auto)]

mod asking;
mod context;
mod counted;
mod counting;
mod course;
mod exercise;
mod expecting;
mod forms;
mod healing;
mod hints;
mod horizon;
mod line;
mod listing;
mod marking;
mod moving;
mod pace;
mod passing;
mod plan;
mod printer;
mod script;
mod stop;

use asking::Asker;
use context::Context;
use counted::{Counted, Counting};
pub use counting::{Cause, Counter, Counts, TableChange};
use course::{Course, Site};
pub use course::{Network, Routes};
pub use exercise::{Role, Statement, Unlike, against};
use expecting::settle;
pub use expecting::{Expected, Fate, Obstacle, Way, meet};
pub use forms::{BadLine, Wrong};
pub use hints::{hint_of, lab_hinted};
pub use horizon::Horizon;
use line::Line;
pub use marking::lab_marked;
pub use moving::MadePhases;
pub use pace::Loss;
use plan::Outages;
pub use plan::addr_at;
pub use printer::{Ending, Named, Names, Notice, Printer, Watch, names_of, print_unmet};
pub use script::{lab, watched, watched_by};
use stop::{Outcome, Stop};
pub use stop::{Refusal, RefusalName, Unmet};
