//! What the calls of a server do, in the words of the rules.
mod calls;
mod clients;
mod crowd;
mod example;
mod export;
mod import;
mod large;
mod listing;
mod model;
mod pair;
mod rule;
mod scripts;
mod sequences;
mod worked;
