//! Going through runs.
ghost use Rattle.std.specs.Prelude.{◌≡◌};
ghost use Rattle.std.specs.List.{filter};
ghost use Rattle.owner_runs.specs.Tests.{meets};

use crate::run_tree::RunTree;
use range_core::{Mode, Span};
use std::marker::Model;

/// Runs, by rising bytes. It takes no memory.
#[derive(Drop)]
pub struct Runs<'a> {
    left: Left<'a>,
}

/// Those that are still to come: those of a list, or those of a tree that end at the one byte or behind it and begin at the
/// other or before it.
#[derive(Drop)]
enum Left<'a> {
    Few(&'a [(Mode, Span)]),
    Many(&'a RunTree, u64, u64),
}

impl<'a> Model for Runs<'a> {
    ghost use Rattle.std.specs.Prelude.{List};
    ghost use Rattle.range_core.specs.declared.Mode.{Mode};
    ghost use Rattle.range_core.specs.declared.Span.{Span};

    ghost Value = { List (Mode × Span) };

    ghost use Rattle.owner_runs.specs.Iterating.{runs_left};

    ghost view = { λ a. runs_left a.left };
}

impl<'a> Runs<'a> {
    /// Those of a list.
    pub(crate) fn of_list(runs: &'a [(Mode, Span)]) -> Runs<'a>
        ensures { result ≡ runs.now }
    {
        Runs {
            left: Left::Few(runs),
        }
    }

    /// Those of a tree that end at the one byte or behind it and begin at the other or before it.
    pub(crate) fn of_tree(tree: &'a RunTree, first: u64, last: u64) -> Runs<'a>
        ensures { result ≡ filter (meets first last) tree.now.items }
    {
        Runs {
            left: Left::Many(tree, first, last),
        }
    }
}

impl<'a> Iterator for Runs<'a> {
    ghost use Rattle.std.specs.Iterator.{YieldsFirst, item_count};

    type Item = (Mode, Span);

    ghost next_gives = { YieldsFirst (λ runs. runs) };

    ghost remaining = { item_count (λ runs. runs) };

    fn next(&mut self) -> Option<(Mode, Span)> {
        match &mut self.left {
            Left::Few(runs) => {
                let (run, others) = runs.split_first()?;
                *runs = others;
                Some(*run)
            }
            Left::Many(tree, first, last) => {
                let run = tree.meeting(*first, *last)?;
                *first = run.1.last + 1;
                Some(run)
            }
        }
    }
}
