//! Where each word of the table stands.
ghost use Rattle.std.specs.Prelude.{◌≡◌, ◌+◌, ◌<◌, ◌≤◌};
ghost use Rattle.table_steps.specs.Places.{IsProcess, Place, index_of, words_of, IsSetup};
ghost use Rattle.table_steps.specs.Rule.{request_cell, answer_cell};

use crate::setup::Setup;

/// How many words the table has.
pub(crate) fn words_in(setup: &Setup) -> usize
    requires { IsSetup setup.now }
    ensures { result ≡ words_of setup.now.processes setup.now.depth }
{
    1 + 3 * setup.processes as usize + 12 * (setup.processes as usize * setup.depth as usize)
}

/// The index of the word that has the number of posted requests of the process.
pub(crate) fn posted_index(setup: &Setup, process: u8) -> usize
    requires { IsSetup setup.now × IsProcess setup.now.processes process }
    ensures value { result ≡ index_of setup.now.processes setup.now.depth (Place.posted process) }
    ensures inside { result < words_of setup.now.processes setup.now.depth }
{
    process as usize
}

/// The index of a word of the cell of the request of the process that has so many before it.
pub(crate) fn request_index(setup: &Setup, process: u8, before: u64, word: usize) -> usize
    requires setup { IsSetup setup.now × IsProcess setup.now.processes process }
    requires word { word < 6 }
    ensures value { result ≡ index_of setup.now.processes setup.now.depth (request_cell setup.now.depth process before word) }
    ensures inside { result < words_of setup.now.processes setup.now.depth }
{
    let processes = setup.processes as usize;
    let depth = setup.depth as usize;
    let cell = (before % setup.depth as u64) as usize;
    1 + 3 * processes + 6 * ((process as usize - 1) * (2 * depth) + cell) + word
}

/// The index of the word that has the number of taken requests of the process.
pub(crate) fn taken_index(setup: &Setup, process: u8) -> usize
    requires { IsSetup setup.now × IsProcess setup.now.processes process }
    ensures value { result ≡ index_of setup.now.processes setup.now.depth (Place.taken process) }
    ensures inside { result < words_of setup.now.processes setup.now.depth }
{
    setup.processes as usize + process as usize
}

/// The index of the word that has the number of published answers to the process.
pub(crate) fn answered_index(setup: &Setup, process: u8) -> usize
    requires { IsSetup setup.now × IsProcess setup.now.processes process }
    ensures value { result ≡ index_of setup.now.processes setup.now.depth (Place.answered process) }
    ensures inside { result < words_of setup.now.processes setup.now.depth }
{
    2 * setup.processes as usize + process as usize
}

/// The index of a word of the cell of the answer to the process that has so many before it.
pub(crate) fn answer_index(setup: &Setup, process: u8, before: u64, word: usize) -> usize
    requires setup { IsSetup setup.now × IsProcess setup.now.processes process }
    requires word { word < 6 }
    ensures value { result ≡ index_of setup.now.processes setup.now.depth (answer_cell setup.now.depth process before word) }
    ensures inside { result < words_of setup.now.processes setup.now.depth }
{
    let processes = setup.processes as usize;
    let depth = setup.depth as usize;
    let cell = (before % setup.depth as u64) as usize;
    1 + 3 * processes + 6 * ((process as usize - 1) * (2 * depth) + depth + cell) + word
}
