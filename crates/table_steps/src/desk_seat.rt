//! The seat of the desk, and the steps that it takes.
ghost use Rattle.std.specs.Prelude.{◌≡◌, ◌+◌, ◌<◌, ◌≤◌, false, true, length, ℕ, ◌++◌, ◌∷◌, []};
ghost use Rattle.table_steps.specs.Steps.{HasDesk};
ghost use Rattle.table_steps.specs.Views.{desk_of};

use crate::client_seat::ClientSeat;
use crate::indexes::{answer_index, answered_index, posted_index, request_index, taken_index};
use crate::plays::{
    Close, FillAnswer, Filling, Look, NewClient, PublishAnswer, Read, Take, Taking,
};
use crate::view::View;
use crate::words::Words;
use atomic_table::Seat;
use session_core::Entry;
use std::marker::Brand;

/// The seat of the desk. What it knows is there in proofs alone, and grows by these steps and by meeting a client.
#[derive(Drop)]
pub struct DeskSeat {
    pub(crate) seat: Seat<(), View>,
    ghost is: { HasDesk (desk_of seat.me.0) seat.me },
}

#[tactic(auto, unfolding(crate::specs::Shown::words_table, crate::specs::Shown::words_setup, crate::specs::Shown::client_at, crate::specs::Shown::client_knows, crate::specs::Shown::desk_at, crate::specs::Shown::desk_knows))]
impl DeskSeat {
    ghost use Rattle.session_core.specs.declared.TheConstants.{N_MAX};
    ghost use Rattle.session_core.specs.Mail.{requests_taken, answers_to};
    ghost use Rattle.table_steps.specs.InTurn.{AreInTurn};
    ghost use Rattle.table_steps.specs.Places.{IsProcess};
    ghost use Rattle.table_steps.specs.Shown.{words_table, words_setup, client_at, client_knows, desk_at, desk_knows};
    ghost use Rattle.table_steps.specs.Spelling.{request_spelled, RequestFits};
    ghost use Rattle.table_steps.specs.Steps.{IsRunOf, GoesOn, IsFilled, BeginsSomeRequest};
    ghost use Rattle.table_steps.specs.Steps.{desk_looked, desk_read, desk_took, desk_filled, desk_told};
    ghost use Rattle.table_steps.specs.Views.{tally_at, new_client};

    /// Splits off the seat of the next process' client, by a load.
    pub fn new_client(&mut self, words: &Words) -> ClientSeat
        requires table { desk_at self.old ≡ words_table words.now }
        requires some { (desk_knows self.old).made < (words_setup words.now).processes }
        ensures view { desk_knows self.new ≡ record (desk_knows self.old) { made = (desk_knows self.old).made + 1 } }
        ensures client { client_knows result ≡ new_client (desk_knows self.old).setup ((desk_knows self.old).made + 1) }
        ensures same { (desk_at self.new ≡ desk_at self.old) × (client_at result ≡ desk_at self.old) }
    {
        let seat = words.table.shared.split_seat::<NewClient>(&mut self.seat);
        ClientSeat { seat }
    }

    /// Loads how many requests the process posted: a look, which is counted.
    pub fn look(&mut self, words: &Words, process: u8) -> u64
        requires table { desk_at self.old ≡ words_table words.now }
        requires process { IsProcess (words_setup words.now).processes process }
        ensures view { desk_knows self.new ≡ desk_looked (desk_knows self.old) process result }
        ensures grows { (tally_at (desk_knows self.old).tallies process).looked ≤ result }
        ensures taken { length (requests_taken process (desk_knows self.old).journal) ≤ result }
        ensures few { result ≤ N_MAX }
        ensures same { desk_at self.new ≡ desk_at self.old }
    {
        let index = posted_index(&words.setup, process);
        words.table.shared.load::<Look>(&mut self.seat, index)
    }

    /// Loads a word of the cell of the next untaken request of the process that it looked at last, the one after those that it read.
    pub fn read(&mut self, words: &Words, process: u8, before: u64, at: usize) -> u64
        requires table { desk_at self.old ≡ words_table words.now }
        requires process { IsProcess (words_setup words.now).processes process × ((desk_knows self.old).reading.0 ≡ process) }
        requires next { (before ≡ length (requests_taken process (desk_knows self.old).journal))
            × (before < (tally_at (desk_knows self.old).tallies process).looked) }
        requires word { (at ≡ length (desk_knows self.old).reading.1) × (at < 6) }
        ensures view { desk_knows self.new ≡ desk_read (desk_knows self.old) result }
        ensures begins { BeginsSomeRequest ((desk_knows self.old).reading.1 ++ result ∷ []) }
        ensures same { desk_at self.new ≡ desk_at self.old }
    {
        let index = request_index(&words.setup, process, before, at);
        words.table.shared.load::<Read>(&mut self.seat, index)
    }

    /// Stores how many requests of the process were taken: one more, the event of this entry. No other step changes the journal.
    pub fn take(&mut self, words: &Words, process: u8, count: u64, entry: &Entry)
        requires table { desk_at self.old ≡ words_table words.now }
        requires process { IsProcess (words_setup words.now).processes process × (entry.now.p ≡ process) }
        requires open { (desk_knows self.old).closed ≡ false }
        requires read { ((desk_knows self.old).reading ≡ (process, request_spelled entry.now.request)) × RequestFits entry.now.request }
        requires count { count ≡ length (requests_taken process (desk_knows self.old).journal) + 1 }
        requires run { IsRunOf (words_setup words.now) (desk_took (desk_knows self.old) entry.now).journal }
        requires in_turn { (q : ℕ) → AreInTurn q (desk_took (desk_knows self.old) entry.now).journal }
        ensures view { desk_knows self.new ≡ desk_took (desk_knows self.old) entry.now }
        ensures same { desk_at self.new ≡ desk_at self.old }
    {
        self.take_named::<Brand>(words, process, count, entry);
    }

    /// Stores a word of the cell of the next answer to the process, the one after those that it filled in.
    pub fn fill(&mut self, words: &Words, process: u8, before: u64, at: usize, word: u64)
        requires table { desk_at self.old ≡ words_table words.now }
        requires process { IsProcess (words_setup words.now).processes process }
        requires next { (before ≡ (tally_at (desk_knows self.old).tallies process).published) × (at ≡ length (desk_knows self.old).filling.1) }
        requires word { GoesOn (desk_knows self.old) process word }
        ensures view { desk_knows self.new ≡ desk_filled (desk_knows self.old) process word }
        ensures same { desk_at self.new ≡ desk_at self.old }
    {
        self.fill_named::<Brand>(words, process, before, at, word);
    }

    /// Stores how many answers to the process were published: one more, which the cell that it filled in spells.
    pub fn publish(&mut self, words: &Words, process: u8, count: u64)
        requires table { desk_at self.old ≡ words_table words.now }
        requires process { IsProcess (words_setup words.now).processes process }
        requires filled { IsFilled (desk_knows self.old) process }
        requires count { count ≡ (tally_at (desk_knows self.old).tallies process).published + 1 }
        ensures view { desk_knows self.new ≡ desk_told (desk_knows self.old) process }
        ensures same { desk_at self.new ≡ desk_at self.old }
    {
        let index = answered_index(&words.setup, process);
        words
            .table
            .shared
            .store::<PublishAnswer>(&mut self.seat, index, count);
    }

    /// Stores the closing mark, where every answer of the journal is published.
    pub fn close(&mut self, words: &Words)
        requires table { desk_at self.old ≡ words_table words.now }
        requires published { (q : ℕ) → IsProcess (words_setup words.now).processes q
            → (tally_at (desk_knows self.old).tallies q).published ≡ length (answers_to q (desk_knows self.old).journal) }
        ensures view { desk_knows self.new ≡ record (desk_knows self.old) { closed = true } }
        ensures same { desk_at self.new ≡ desk_at self.old }
    {
        words.table.shared.store::<Close>(&mut self.seat, 0, 1);
    }

    /// Stores how many requests of the process were taken: one more, the event that is named.
    fn take_named<B: Taking>(&mut self, words: &Words, process: u8, count: u64, entry: &Entry)
        requires table { desk_at self.old ≡ words_table words.now }
        requires process { IsProcess (words_setup words.now).processes process × (entry.now.p ≡ process) }
        requires named { B.event ≡ entry.now }
        requires open { (desk_knows self.old).closed ≡ false }
        requires read { ((desk_knows self.old).reading ≡ (process, request_spelled entry.now.request)) × RequestFits entry.now.request }
        requires count { count ≡ length (requests_taken process (desk_knows self.old).journal) + 1 }
        requires run { IsRunOf (words_setup words.now) (desk_took (desk_knows self.old) entry.now).journal }
        requires in_turn { (q : ℕ) → AreInTurn q (desk_took (desk_knows self.old) entry.now).journal }
        ensures view { desk_knows self.new ≡ desk_took (desk_knows self.old) entry.now }
        ensures same { desk_at self.new ≡ desk_at self.old }
    {
        let index = taken_index(&words.setup, process);
        words
            .table
            .shared
            .store::<Take<B>>(&mut self.seat, index, count);
    }

    /// Stores a word of the cell of the next answer to the process that is named.
    fn fill_named<B: Filling>(
        &mut self,
        words: &Words,
        process: u8,
        before: u64,
        at: usize,
        word: u64,
    )
        requires table { desk_at self.old ≡ words_table words.now }
        requires process { IsProcess (words_setup words.now).processes process }
        requires named { B.process ≡ process }
        requires next { (before ≡ (tally_at (desk_knows self.old).tallies process).published) × (at ≡ length (desk_knows self.old).filling.1) }
        requires word { GoesOn (desk_knows self.old) process word }
        ensures view { desk_knows self.new ≡ desk_filled (desk_knows self.old) process word }
        ensures same { desk_at self.new ≡ desk_at self.old }
    {
        let index = answer_index(&words.setup, process, before, at);
        words
            .table
            .shared
            .store::<FillAnswer<B>>(&mut self.seat, index, word);
    }
}
