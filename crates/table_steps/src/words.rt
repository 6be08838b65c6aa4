//! The words between the clients and the desk.
ghost use Rattle.std.specs.Prelude.{◌≡◌, IfOk, replicate};
ghost use Rattle.table_steps.specs.Places.{words_of, IsSetup};

use crate::desk_seat::DeskSeat;
use crate::indexes::words_in;
use crate::rule::Rule;
use crate::setup::Setup;
use crate::view::View;
use atomic_table::Table;
use range_core::Memory;
use std::alloc::Global;

/// The words between the clients and the desk. A seat loads and stores them by its own steps, and there is no other way to them.
#[derive(Drop)]
pub struct Words {
    pub(crate) table: Table<(), View, Setup, Rule, Global>,
    pub(crate) setup: Setup,
    ghost keyed: { table.shared.key ≡ setup },
    ghost wide: { table.shared.table_id.words ≡ words_of setup.processes setup.depth },
    ghost sized: { IsSetup setup },
}

/// So many words, each 0.
fn zeros(alloc: Global, count: usize) -> Result<Vec<u64>, Memory>
    ensures { IfOk result (λ words. words.items ≡ replicate count 0) }
{
    Ok(vec![in alloc; 0; count]?)
}

#[tactic(auto, unfolding(crate::specs::Shown::words_table, crate::specs::Shown::words_setup, crate::specs::Shown::desk_at, crate::specs::Shown::desk_knows))]
impl Words {
    ghost use Rattle.table_steps.specs.Shown.{IsNewTable};

    /// The words of a table that is made with this, each 0, and the seat of its desk.
    pub fn new(alloc: Global, setup: Setup) -> Result<(Words, DeskSeat), Memory>
        requires { IsSetup setup }
        ensures { IfOk result (λ made. IsNewTable setup made.0 made.1) }
    {
        let words = zeros(alloc, words_in(&setup))?;
        let (table, seat) = Table::<(), View, Setup, Rule, Global>::of_words(
            alloc,
            words.as_slice(),
            &setup,
        )?;
        Ok((Words { table, setup }, DeskSeat { seat }))
    }
}
