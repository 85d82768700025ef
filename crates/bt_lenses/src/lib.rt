//! What a run made of an open file, for an editor: a line over each entry of a database and each function of the style
//! (`lenses`), and where a byte of the bibliography comes from (`origin_at`).
//!
//! Both carry out the run's steps again with marks (`bt_origins`). That takes up to four times as long as a run, so it is
//! done only when the editor asks, and only for bibliographies of a limited size.
#![tactic(auto)]

mod entries;
mod functions;
mod origin;
mod ran;

pub use origin::origin_at;
pub use ran::{Ran, lenses};
