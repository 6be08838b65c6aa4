//! The steps on the words: what each stores or loads, and what it tells its side.
// What each kind of step tells its caller, and how views are split and joined. These types are for the proofs alone.
ghost use Rattle.table_steps.specs.Steps.{Compares, Fills, Posts, Looks, Reads, Finds, Gets, Collects, Marks, Publishes, Closes};
ghost use Rattle.table_steps.specs.Steps.{desk_before, client_made, joined, desk_parted, client_parted};

use crate::view::View;
use atomic_table::{Join, Play, Split};
use std::marker::{Brand, PhantomData};

/// A client stores a word of its next request.
pub struct Fill;

impl Play<(), View> for Fill {
    ghost then = { Fills };
}

/// A client stores how many requests it posted.
pub struct Publish;

impl Play<(), View> for Publish {
    ghost then = { Posts };
}

/// The desk loads how many requests a process posted.
pub struct Look;

impl Play<(), View> for Look {
    ghost then = { Looks };
}

/// The desk loads a word of the next request of a process.
pub struct Read;

impl Play<(), View> for Read {
    ghost then = { Reads };
}

/// A client loads how many answers to it were published.
pub struct Find;

impl Play<(), View> for Find {
    ghost then = { Finds };
}

/// A client loads a word of its next answer, which isn't the last.
pub struct Get;

impl Play<(), View> for Get {
    ghost then = { Gets };
}

/// A client loads the last word of its next answer.
pub struct Collect;

impl Play<(), View> for Collect {
    ghost then = { Collects };
}

/// A client loads the closing mark.
pub struct Mark;

impl Play<(), View> for Mark {
    ghost then = { Marks };
}

/// The desk stores how many answers to a process it published.
pub struct PublishAnswer;

impl Play<(), View> for PublishAnswer {
    ghost then = { Publishes };
}

/// The desk stores the closing mark.
pub struct Close;

impl Play<(), View> for Close {
    ghost then = { Closes };
}

/// A client's seat is split off the desk's.
pub struct NewClient;

impl Split<View> for NewClient {
    ghost left = { desk_before };

    ghost right = { client_made };
}

/// The seats of the desk and of a client are joined, and split again.
pub struct Meeting;

impl Join<View> for Meeting {
    ghost use Rattle.table_steps.specs.declared.view.View.TheVariants.{Spent};

    ghost both = { joined };

    ghost spent = { Spent };
}

impl Split<View> for Meeting {
    ghost left = { desk_parted };

    ghost right = { client_parted };
}

/// A joined seat loads a word.
pub struct Compare;

impl Play<(), View> for Compare {
    ghost then = { Compares };
}

/// Which event is taken. The call that takes it picks it.
pub trait Taking {
    ghost use Rattle.session_core.specs.Event.{Event};

    ghost event: { Event };
}

impl Taking for Brand {
    ghost use Rattle.table_steps.specs.Views.{no_event};

    ghost event = { no_event };
}

/// The desk stores how many requests of a process it took: the one event of the journal.
pub struct Take<B> {
    marker: PhantomData<B>,
}

impl<B: Taking> Play<(), View> for Take<B> {
    ghost use Rattle.table_steps.specs.Steps.{Takes};

    ghost then = { Takes B.event };
}

/// Whose answer is filled in. The call that fills it in picks it.
pub trait Filling {
    ghost use Rattle.std.specs.Prelude.{ℕ};

    ghost process: { ℕ };
}

impl Filling for Brand {
    ghost process = { 0 };
}

/// The desk stores a word of the next answer to a process.
pub struct FillAnswer<B> {
    marker: PhantomData<B>,
}

impl<B: Filling> Play<(), View> for FillAnswer<B> {
    ghost use Rattle.table_steps.specs.Steps.{FillsAnswer};

    ghost then = { FillsAnswer B.process };
}
