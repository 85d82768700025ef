//! The desk of the language server: the documents that the editor holds open, the paper that they belong to, and what the
//! messages about them mean.
//!
//! The desk is written over any `Paper`. So its contract speaks of a paper's messages and of what an entry prints, and
//! nothing here depends on how a session gets them.
#![tactic(auto)]

mod announcing;
mod answering;
mod carrying;
mod changes;
mod complaints;
mod found;
mod methods;
mod news;
mod placing;
mod progress;
mod server;
mod styles;
mod taking;
mod watching;

pub use server::Server;
