//! The call that serves a file over HTTP.
//!
//! [`serve_run`] answers the words `serve FILE --port=P --connections=N`, over the bytes of the file and a listener: it serves
//! so many connections, one after another, and writes how many there were, how many requests were answered over them, and
//! how many bytes were sent. What it does by the status that it ends with stands in `specs/Runs.antt`; how a connection is
//! served, in `range_server` and `range_serving`.
//!
//! ```text
//! let words = ["serve", "map.fgb", "--port=8080", "--connections=1"];
//! serve_run(alloc, &words, image, &mut listener, &mut out, &mut err)     // 0, and `served 1 requests 1 sent 116`
//! ```
#![tactic(auto)]

mod line;
mod run;
#[cfg(test)]
mod tests;

pub use run::serve_run;
