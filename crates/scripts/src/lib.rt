// A script of calls played on one store: `play` makes the store's own calls, and its promise is demand 3's claim of them.
#![tactic(auto)]

mod calls;
mod playing;
mod script;
mod words;

pub use playing::play;
