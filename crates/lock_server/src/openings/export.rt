//! The notes, as words.
ghost use Rattle.std.specs.Prelude.{◌≡◌, Some};
ghost use Rattle.std.specs.List.{flat_map};
ghost use Rattle.lock_server.specs.Bytes.{listed, note_words};
ghost use Rattle.lock_server.specs.Inventory.{AreJust, note_place};
ghost use Rattle.lock_server.specs.OpeningsView.{open_of, through_at};
ghost use Rattle.lock_server.specs.Words.{PutsSome};

use super::{Openings, Seen};
use crate::words;

#[tactic(auto, unfolding(crate::specs::OpeningsView::open_of))]
impl Seen {
    /// Puts the notes of the file, by owner.
    fn put(&self, out: &mut [u8], at: usize, file: u64) -> usize
        ensures { PutsSome (AreJust note_place (λ note. (note.file ≡ file) × (open_of self.now note.owner ≡ Some note.open_file))) (flat_map note_words)
            out.old at out.new result }
    {
        let mut behind = at;
        for (owner, open_file) in &self.owners {
            behind = words::put_all(out, behind, &[file, *owner, *open_file]);
        }
        behind
    }
}

#[tactic(auto, unfolding(crate::specs::OpeningsView::open_of, crate::specs::OpeningsView::through_at))]
impl Openings {
    /// Puts how many notes there are, and these.
    pub fn put(&self, out: &mut [u8], at: usize) -> usize
        ensures { PutsSome (AreJust note_place (λ note. through_at self.now note.file note.owner ≡ Some note.open_file)) (listed note_words)
            out.old at out.new result }
    {
        let size = self.put_each(&mut [], 0);
        // Each takes three words of eight bytes.
        let at = words::put(out, at, (size / 24) as u64);
        self.put_each(out, at)
    }

    /// Puts the notes, by file, and then by owner.
    fn put_each(&self, out: &mut [u8], at: usize) -> usize
        ensures { PutsSome (AreJust note_place (λ note. through_at self.now note.file note.owner ≡ Some note.open_file)) (flat_map note_words)
            out.old at out.new result }
    {
        let mut behind = at;
        for (file, seen) in &self.files {
            behind = seen.put(out, behind, *file);
        }
        behind
    }
}
