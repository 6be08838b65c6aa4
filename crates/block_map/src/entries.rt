//! Entries that are lent.
ghost use Rattle.std.specs.Prelude.{◌≡◌};
ghost use Rattle.std.specs.List.{zip};
ghost use Rattle.std.specs.Map.Iter.{TakesFirst, deref_pair};

use std::marker::Model;

/// Each key beside its value.
#[derive(Drop)]
pub(crate) struct Entries<'a, K, V> {
    keys: &'a [K],
    values: &'a [V],
}

impl<'a, K, V> Model for Entries<'a, K, V> {
    ghost use Rattle.std.specs.Prelude.{List};
    ghost use Rattle.std.specs.List.{zip};

    ghost Value = { List (K × V) };

    ghost view = { λ a. zip a.keys.now a.values.now };
}

impl<'a, K, V> Entries<'a, K, V> {
    /// The entries of these keys and values.
    pub(crate) fn new(keys: &'a [K], values: &'a [V]) -> Self
        ensures { result ≡ zip keys.now values.now }
    {
        Entries { keys, values }
    }

    /// Takes the first entry out.
    pub(crate) fn take_first(&mut self) -> Option<(&'a K, &'a V)>
        ensures { TakesFirst deref_pair self.old result self.new }
    {
        let (key, keys) = self.keys.split_first()?;
        let (value, values) = self.values.split_first()?;
        self.keys = keys;
        self.values = values;
        Some((key, value))
    }
}
