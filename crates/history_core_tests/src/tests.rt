//! Small histories of one file, judged by hand from the standards, and large ones.
mod bytes;
mod deaths;
mod endings;
mod flocks;
mod gets;
mod large;
mod lines;
mod orders;
