//! A whole history, line by line.
ghost use Rattle.std.specs.Prelude.{◌≡◌, ◌<◌, ◌++◌, ◌∷◌, [], None, Some, OnOk, OnErr, true, vec_capacity, vec_len};
ghost use Rattle.history_judge.specs.Known.{IsHistory, PutsRequest};

use crate::fault::JudgeFault;
use crate::files::Files;
use crate::order::FileHappening;
use history_core::{Answer, Request, SearchFault};
use range_core::Memory;
use std::alloc::Global;
use std::collections::BTreeMap;

/// A request that was sent and isn't answered.
#[derive(Clone, Copy, Debug, PartialEq, Eq)]
pub struct OpenRequest {
    /// The number of the line that sent it, as the caller counts lines.
    pub line: u64,
    /// The file's number.
    pub file: u64,
    /// Its ID, its owner and what it asks for.
    pub request: Request,
}

/// What is known of a whole history, line by line: its open requests, and of each file what its lines allow.
#[derive(Drop)]
pub struct HistoryJudge {
    files: Files,
    /// By ID.
    opened: BTreeMap<u64, OpenRequest>,
    /// The file of each line that was read, in order, where an order is kept.
    line_files: Vec<u64>,
    ghost known: { ∥ IsHistory files opened ∥₁ },
}

impl HistoryJudge {
    ghost use Rattle.std.specs.Prelude.{◌≢◌, ◌≤◌, ◌↔◌, ℕ, Bool, List, Ok, Err, IsTrue, IfOk, IfSome, false};
    ghost use Rattle.history_judge.specs.FilesView.{file_in, runs_of};
    ghost use Rattle.std.specs.BTreeMap.{get};
    ghost use Rattle.std.specs.Ordering.{nat_cmp};
    ghost use Rattle.history_core.specs.declared.search.SearchFault.{SearchFault};
    ghost use Rattle.history_judge.specs.declared.fault.JudgeFault.{JudgeFault};
    ghost use Rattle.history_judge.specs.Histories.{Answered, HistoryLine, MayEnd, Sent};
    ghost use Rattle.history_judge.specs.JudgeView.{Exceeds, HasOpen, Knows, Opens, Refuses, Stays, StaysOpen, Takes, keeps_order as keeps_order_of, kept_in, open_in};
    ghost use Rattle.history_judge.specs.HistoryOrders.{IsLeft};

    /// No line was read. With `runs` a get tells largest ranges of one mode alone (POSIX.1-2017 fcntl, `F_GETLK`, leaves open which part of
    /// the lock it tells). It takes no memory.
    pub fn new(alloc: Global, runs: bool) -> HistoryJudge
        ensures knows { Knows runs result [] }
        ensures open { (id : ℕ) → open_in result id ≡ None }
        ensures count { kept_in result ≡ 0 }
    {
        HistoryJudge::with_files(alloc, Files::new(alloc, runs, false))
    }

    /// The same, with an order of effects kept, for `order`: memory grows with each line and each effect.
    pub fn keeping_order(alloc: Global, runs: bool) -> HistoryJudge
        ensures knows { Knows runs result [] }
        ensures open { (id : ℕ) → open_in result id ≡ None }
        ensures count { kept_in result ≡ 0 }
        ensures keeps { keeps_order_of result ≡ true }
    {
        HistoryJudge::with_files(alloc, Files::new(alloc, runs, true))
    }

    /// No line was read.
    fn with_files(alloc: Global, files: Files) -> HistoryJudge
        requires none { (file : ℕ) → file_in files file ≡ None }
        ensures files { result.files ≡ files }
        ensures open { (id : ℕ) → open_in result id ≡ None }
        ensures knows { Knows (runs_of files) result [] }
    {
        HistoryJudge {
            files,
            opened: BTreeMap::new(alloc),
            line_files: Vec::new(alloc),
        }
    }

    /// Whether an order of effects is kept.
    pub fn keeps_order(&self) -> bool
        ensures { result ≡ keeps_order_of self.now }
    {
        self.files.keeps_order()
    }

    /// How many possibilities are kept, of all files together.
    pub fn count(&self) -> u128
        ensures { result ≡ kept_in self.now }
    {
        self.files.count()
    }

    /// The open request of this ID.
    pub fn open_request(&self, id: u64) -> Option<OpenRequest>
        ensures { result ≡ open_in self.now id }
    {
        self.opened.get(&id).copied()
    }

    /// The open requests, by ID.
    pub fn open_requests(&self) -> &BTreeMap<u64, OpenRequest>
        ensures { (id : ℕ) → get nat_cmp result.now id ≡ open_in self.now id }
    {
        &self.opened
    }

    /// Reads a `>`, the line of this number: the request was sent on the file.
    ///
    /// `IdTaken` where its ID is open, `Limit` where more possibilities than the limit are kept at once over all files, or would be. Each
    /// fault reads no line.
    pub fn send(
        &mut self,
        line: u64,
        file: u64,
        request: Request,
        limit: usize,
    ) -> Result<(), JudgeFault>
        ensures ok { OnOk result (Takes self.old self.new (Sent file request)) }
        ensures open { OnOk result (Opens self.old self.new request.id (Some (record { line = line; file = file; request = request }))) }
        ensures room { OnOk result (kept_in self.old ≤ limit) }
        ensures taken { (result ≡ Err JudgeFault.IdTaken) ↔ HasOpen self.old request.id }
        ensures legal { result ≢ Err JudgeFault.Impossible }
        ensures known { result ≢ Err JudgeFault.IdUnknown }
        ensures limit { result ≡ Err JudgeFault.Limit → Exceeds self.old limit }
        ensures err { OnErr result (Stays self.old self.new) }
        ensures err_open { OnErr result (StaysOpen self.old self.new) }
        ensures keeps { keeps_order_of self.new ≡ keeps_order_of self.old }
    {
        if self.opened.contains_key(&request.id) {
            return Err(JudgeFault::IdTaken);
        }
        let keeps = self.files.keeps_order();
        make_room(&mut self.line_files, keeps)?;
        let sent = OpenRequest {
            line,
            file,
            request,
        };
        put_request(&mut self.opened, sent)?;
        match self.files.send(file, request, limit) {
            Ok(()) => {
                log_line(&mut self.line_files, keeps, file);
                Ok(())
            }
            Err(fault) => {
                remove_request(&mut self.opened, request.id);
                Err(JudgeFault::from(fault))
            }
        }
    }

    /// Reads a `<`: the open request of this ID was told this.
    ///
    /// `IdUnknown` where the ID isn't open, `Impossible` where no order of all effects permits the answer, `Limit` where more possibilities
    /// than the limit are kept at once over all files, or would be. Each fault reads no line.
    pub fn answer(&mut self, id: u64, answer: Answer, limit: usize) -> Result<(), JudgeFault>
        ensures ok { OnOk result (Takes self.old self.new (Answered id answer)) }
        ensures open { OnOk result (Opens self.old self.new id None) }
        ensures room { OnOk result (kept_in self.old ≤ limit) }
        ensures unknown { (result ≡ Err JudgeFault.IdUnknown) ↔ (open_in self.old id ≡ None) }
        ensures free { result ≢ Err JudgeFault.IdTaken }
        ensures illegal { result ≡ Err JudgeFault.Impossible → Refuses self.old (Answered id answer) }
        ensures limit { result ≡ Err JudgeFault.Limit → Exceeds self.old limit }
        ensures err { OnErr result (Stays self.old self.new) }
        ensures err_open { OnErr result (StaysOpen self.old self.new) }
        ensures keeps { keeps_order_of self.new ≡ keeps_order_of self.old }
    {
        let Some(sent) = self.open_request(id) else {
            return Err(JudgeFault::IdUnknown);
        };
        let keeps = self.files.keeps_order();
        make_room(&mut self.line_files, keeps)?;
        if !self.files.answer(sent.file, id, answer, limit)? {
            return Err(JudgeFault::Impossible);
        }
        remove_request(&mut self.opened, id);
        log_line(&mut self.line_files, keeps, sent.file);
        Ok(())
    }

    /// Whether the history may end so: there was an order of all effects behind which each open wait waits still (this project's choice).
    ///
    /// `Limit` where more possibilities than the limit are kept at once over all files, or would be, `Memory` where a growth was refused.
    pub fn may_end(&self, limit: usize) -> Result<bool, SearchFault>
        ensures ok { IfOk result (λ may_end. (runs : Bool) (lines : List HistoryLine) → Knows runs self.now lines → IsTrue may_end ↔ MayEnd runs lines) }
        ensures room { OnOk result (kept_in self.now ≤ limit) }
        ensures limit { result ≡ Err SearchFault.Limit → Exceeds self.now limit }
    {
        self.files.may_end(limit)
    }

    /// One order of all effects, and losses of conversions' old locks, in which every answer is permitted, by the line behind which each came;
    /// those behind one line are of its file, and stand in their order. None where no order is kept.
    pub fn order(&self) -> Result<Option<Vec<FileHappening>>, Memory>
        ensures none { result ≡ Ok None → keeps_order_of self.now ≡ false }
        ensures is_order { IfOk result (λ told. IfSome told (λ order. (runs : Bool) (lines : List HistoryLine) → Knows runs self.now lines
            → IsLeft runs lines order.items)) }
    {
        if !self.files.keeps_order() {
            return Ok(None);
        }
        let order = self.files.order(&self.line_files)?;
        Ok(Some(order))
    }
}

/// One line more has room, where the file of each is kept.
///
/// `Memory` leaves them as they were.
fn make_room(line_files: &mut Vec<u64>, keeps: bool) -> Result<(), Memory>
    ensures ok { OnOk result (keeps ≡ true → vec_len line_files.new < vec_capacity line_files.new) }
    ensures items { line_files.new.items ≡ line_files.old.items }
{
    if keeps {
        line_files.reserve(1)?;
    }
    Ok(())
}

/// One line more was read, of this file.
fn log_line(line_files: &mut Vec<u64>, keeps: bool, file: u64)
    requires { keeps ≡ true → vec_len line_files.old < vec_capacity line_files.old }
    ensures { keeps ≡ true → line_files.new.items ≡ line_files.old.items ++ file ∷ [] }
{
    if keeps {
        let _ = line_files.push(file);
    }
}

/// The request is open, under its ID.
fn put_request(opened: &mut BTreeMap<u64, OpenRequest>, sent: OpenRequest) -> Result<(), Memory>
    ensures ok { OnOk result (PutsRequest opened.old opened.new sent.request.id (Some sent)) }
    ensures err { OnErr result (opened.new.entries ≡ opened.old.entries) }
{
    opened.insert(sent.request.id, sent)?;
    Ok(())
}

/// No request is open under the ID.
fn remove_request(opened: &mut BTreeMap<u64, OpenRequest>, id: u64)
    ensures { PutsRequest opened.old opened.new id None }
{
    opened.remove(&id);
}
