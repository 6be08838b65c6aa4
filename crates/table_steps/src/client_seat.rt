//! The seat of a client, and the steps that it takes.
ghost use Rattle.std.specs.Prelude.{◌≡◌, ◌+◌, ◌<◌, true, length, ◌++◌, ◌∷◌, []};
ghost use Rattle.table_steps.specs.Steps.{HasClient};
ghost use Rattle.table_steps.specs.Views.{client_of};

use crate::indexes::{answer_index, answered_index, posted_index, request_index};
use crate::plays::{Collect, Fill, Find, Get, Mark, Publish};
use crate::view::View;
use crate::words::Words;
use atomic_table::Seat;
use lock_manager::Request;

/// The seat of the client of one process. What it knows is there in proofs alone, and grows by these steps and by meeting the desk.
#[derive(Drop)]
pub struct ClientSeat {
    pub(crate) seat: Seat<(), View>,
    ghost is: { HasClient (client_of seat.me.0) seat.me },
}

#[tactic(auto, unfolding(crate::specs::Shown::words_table, crate::specs::Shown::words_setup, crate::specs::Shown::client_at, crate::specs::Shown::client_knows))]
impl ClientSeat {
    ghost use Rattle.session_core.specs.declared.TheConstants.{N_MAX};
    ghost use Rattle.table_steps.specs.Places.{IsProcess};
    ghost use Rattle.table_steps.specs.Spelling.{request_spelled, RequestFits};
    ghost use Rattle.table_steps.specs.Shown.{words_table, words_setup, client_at, client_knows};
    ghost use Rattle.table_steps.specs.Steps.{client_filled, client_posted, client_read, client_collected, client_marked};
    ghost use Rattle.table_steps.specs.Steps.{IsNextAnswer, IsFound};

    /// Stores a word of the cell of its next request, the one after those that it filled in.
    pub fn fill(&mut self, words: &Words, process: u8, before: u64, at: usize, word: u64)
        requires table { client_at self.old ≡ words_table words.now }
        requires process { IsProcess (words_setup words.now).processes process × ((client_knows self.old).process ≡ process) }
        requires next { (length (client_knows self.old).posted ≡ before) × (length (client_knows self.old).filled ≡ at) × (at < 6) }
        requires room { before < (client_knows self.old).collected + (words_setup words.now).depth }
        ensures view { client_knows self.new ≡ client_filled (client_knows self.old) word }
        ensures same { client_at self.new ≡ client_at self.old }
    {
        let index = request_index(&words.setup, process, before, at);
        words
            .table
            .shared
            .store::<Fill>(&mut self.seat, index, word);
    }

    /// Stores how many requests it posted: one more, which the cell that it filled in spells.
    pub fn publish(&mut self, words: &Words, process: u8, before: u64, request: Request)
        requires table { client_at self.old ≡ words_table words.now }
        requires process { IsProcess (words_setup words.now).processes process × ((client_knows self.old).process ≡ process) }
        requires next { (length (client_knows self.old).posted ≡ before) × (before < N_MAX) }
        requires filled { ((client_knows self.old).filled ≡ request_spelled request) × RequestFits request }
        requires room { before < (client_knows self.old).collected + (words_setup words.now).depth }
        ensures view { client_knows self.new ≡ client_posted (client_knows self.old) request }
        ensures same { client_at self.new ≡ client_at self.old }
    {
        let index = posted_index(&words.setup, process);
        words
            .table
            .shared
            .store::<Publish>(&mut self.seat, index, before + 1);
    }

    /// Loads how many answers to it were published: a look, which is counted.
    pub fn find(&mut self, words: &Words, process: u8) -> u64
        requires table { client_at self.old ≡ words_table words.now }
        requires process { IsProcess (words_setup words.now).processes process × ((client_knows self.old).process ≡ process) }
        ensures view { IsFound (client_knows self.old) result (client_knows self.new) }
        ensures same { client_at self.new ≡ client_at self.old }
    {
        let index = answered_index(&words.setup, process);
        words.table.shared.load::<Find>(&mut self.seat, index)
    }

    /// Loads a word of the cell of its next answer, the one after those that it read and not the last.
    pub fn get(&mut self, words: &Words, process: u8, before: u64, at: usize) -> u64
        requires table { client_at self.old ≡ words_table words.now }
        requires process { IsProcess (words_setup words.now).processes process × ((client_knows self.old).process ≡ process) }
        requires next { ((client_knows self.old).collected ≡ before) × (length (client_knows self.old).read ≡ at) × (at < 5) }
        requires known { before < (client_knows self.old).known }
        ensures view { client_knows self.new ≡ client_read (client_knows self.old) result }
        ensures same { client_at self.new ≡ client_at self.old }
    {
        let index = answer_index(&words.setup, process, before, at);
        words.table.shared.load::<Get>(&mut self.seat, index)
    }

    /// Loads the last word of the cell of its next answer, which is then collected.
    pub fn collect(&mut self, words: &Words, process: u8, before: u64) -> u64
        requires table { client_at self.old ≡ words_table words.now }
        requires process { IsProcess (words_setup words.now).processes process × ((client_knows self.old).process ≡ process) }
        requires next { ((client_knows self.old).collected ≡ before) × (length (client_knows self.old).read ≡ 5) }
        requires known { before < (client_knows self.old).known }
        ensures view { client_knows self.new ≡ client_collected (client_knows self.old) }
        ensures answer { IsNextAnswer (client_knows self.old) ((client_knows self.old).read ++ result ∷ []) }
        ensures below { before < length (client_knows self.old).posted }
        ensures same { client_at self.new ≡ client_at self.old }
    {
        let index = answer_index(&words.setup, process, before, 5);
        words.table.shared.load::<Collect>(&mut self.seat, index)
    }

    /// Loads the closing mark: a look at it, which is counted.
    pub fn mark(&mut self, words: &Words) -> u64
        requires { client_at self.old ≡ words_table words.now }
        ensures view { client_knows self.new ≡ client_marked (client_knows self.old) result }
        ensures stays { (client_knows self.old).over ≡ true → result ≡ 1 }
        ensures same { client_at self.new ≡ client_at self.old }
    {
        words.table.shared.load::<Mark>(&mut self.seat, 0)
    }
}
