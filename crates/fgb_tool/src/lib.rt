//! [`run`] answers the commands that write on the output: `query`, `check`, `pack` and `convert`, which read one file, and
//! `make`, which reads none. [`plan`] of `command_words` says what a command's words ask.
//!
//! `run` reads the words. It writes what a query of one to eight boxes finds as one of three texts (`write_found` of
//! `text_query`), or those of the features found for which a condition holds (`write_where` of `where_query`), or says that the file breaks no rule, or writes the packing of the file, or the file in another form
//! (`convert_file` of `convert_command`), or makes features in memory and queries them there (`make_text` of
//! `make_command`). A query asks for no needless byte but those of holes that are shorter than its gap, and for each byte
//! once; a check reads the leaves of an index twice. Its contract speaks of the source's bytes and of what it was asked, of
//! the bytes written, of the text of a refusal and of the status (`specs/Runs.antt`, `specs/Filtered.antt`); the definitions that it cites are
//! those of `fgb_file`, `box_query`, `text_query`, `fgb_pack`, `convert_command` and `make_command`.
#![tactic(auto)]

mod check;
mod pack;
mod query;
mod stop;
mod texts;
mod top;

pub use command_words::{Command, Plan, Target, plan};
pub use top::run;
