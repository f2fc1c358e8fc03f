//! The actions of the command. Each takes its words and the files of a store, does what it is for, and closes with its status and its line.
//!
//! `go`, `trace`, `big` and `exec` run an image; `results` has those that write a text (`map`, `depth`, `code`, `list`) or a file
//! (`compile`, `migrate`, `hex`), `libraries` those of libraries (`lib`, `link`). What the report of `depth` and the listing of `code`
//! say is in modules of their names. What each promises is told in `cw_correct`.
#![tactic(auto)]

pub mod big;
pub mod code;
pub mod depth;
pub mod exec;
pub mod go;
pub mod libraries;
mod numbers;
pub mod results;
mod texts;
pub mod trace;
