//! Histories of several files, judged by hand from the standards, and a large one.
mod faults;
mod files;
mod large;
mod lines;
mod orders;
