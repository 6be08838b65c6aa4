//! What is known of all files of a history, one by one.
ghost use Rattle.std.specs.Prelude.{◌≡◌, ◌≢◌, ◌-◌, OnOk, OnErr, None};
ghost use Rattle.std.specs.BTreeMap.{IsOrdered, get};
ghost use Rattle.std.specs.Ordering.{nat_cmp};
ghost use Rattle.history_core.specs.FileView.{count_in};
ghost use Rattle.history_judge.specs.Kept.{kept_by};
ghost use Rattle.history_judge.specs.Entries.{Answers, Inserts, IsFreeOn, Rewrites, Sends};
ghost use Rattle.history_judge.specs.FileOrders.{PutsOrder};

use crate::order::{FileHappening, FileOrder, merged};
use history_core::{Answer, FileHistory, Request, SearchFault};
use range_core::Memory;
use std::alloc::Global;
use std::collections::BTreeMap;

/// What is known of each file that a request was sent on.
#[derive(Drop)]
pub struct Files {
    alloc: Global,
    /// Whether a get tells largest ranges alone.
    runs: bool,
    /// Whether an order of each file's effects is kept.
    keeps: bool,
    /// By number.
    files: BTreeMap<u64, FileHistory>,
    /// How many possibilities they keep together.
    kept: u128,
    ghost counted: { kept ≡ kept_by files },
}

impl Files {
    ghost use Rattle.std.specs.Prelude.{◌<◌, ◌≤◌, ◌↔◌, ℕ, [], IfOk, IsTrue, true, false};
    ghost use Rattle.history_core.specs.declared.search.SearchFault.{SearchFault};
    ghost use Rattle.history_core.specs.Moments.{Answered, Sent};
    ghost use Rattle.history_judge.specs.FilesView.{TellsEnd, Exceeds, Refuses, Stays, Takes, file_in, keeps_in, kept_beside as kept_beside_of, kept_in, runs_of};
    ghost use Rattle.history_core.specs.FileView.{Knows as KnowsFile, keeps_order as keeps_order_of};
    ghost use Rattle.history_judge.specs.FileOrders.{AreMerged, AreOrders};

    /// Nothing was sent. With `runs` a get tells largest ranges of one mode alone, with `keeps` an order of each file's effects is kept. It
    /// takes no memory.
    pub fn new(alloc: Global, runs: bool, keeps: bool) -> Files
        ensures none { (file : ℕ) → file_in result file ≡ None }
        ensures runs { runs_of result ≡ runs }
        ensures keeps { keeps_in result ≡ keeps }
        ensures kept { kept_in result ≡ 0 }
    {
        Files {
            alloc,
            runs,
            keeps,
            files: BTreeMap::new(alloc),
            kept: 0,
        }
    }

    /// How many possibilities are kept, of all files together.
    pub fn count(&self) -> u128
        ensures { result ≡ kept_in self.now }
    {
        self.kept
    }

    /// Whether an order of each file's effects is kept.
    pub fn keeps_order(&self) -> bool
        ensures { result ≡ keeps_in self.now }
    {
        self.keeps
    }

    /// Reads a `>` on the file, on which no open request has the ID.
    ///
    /// Each fault reads no line. `Limit` where more possibilities than the limit are kept, or would be.
    pub fn send(&mut self, file: u64, request: Request, limit: usize) -> Result<(), SearchFault>
        requires { IsFreeOn (file_in self.old file) request.id }
        ensures ok { OnOk result (Takes self.old self.new file (Sent request)) }
        ensures room { OnOk result (kept_in self.old ≤ limit) }
        ensures limit { result ≡ Err SearchFault.Limit → Exceeds self.old limit }
        ensures err { OnErr result (Stays self.old self.new) }
        ensures runs { runs_of self.new ≡ runs_of self.old }
        ensures keeps { keeps_in self.new ≡ keeps_in self.old }
    {
        if self.is_over(limit) {
            return Err(SearchFault::Limit);
        }
        if self.files.contains_key(&file) {
            self.send_again(file, request, limit)
        } else {
            self.send_first(file, request, limit)
        }
    }

    /// Reads a `<` on the file, on which a request was sent. `false` where no order of the file's effects permits it, and then no line is read.
    ///
    /// Each fault reads no line. `Limit` where more possibilities than the limit are kept, or would be.
    pub fn answer(
        &mut self,
        file: u64,
        id: u64,
        answer: Answer,
        limit: usize,
    ) -> Result<bool, SearchFault>
        requires { file_in self.old file ≢ None }
        ensures legal { IfOk result (λ is_legal. is_legal ≡ true → Takes self.old self.new file (Answered id answer)) }
        ensures illegal { IfOk result (λ is_legal. is_legal ≡ false → Refuses self.old file (Answered id answer)) }
        ensures stays { IfOk result (λ is_legal. is_legal ≡ false → Stays self.old self.new) }
        ensures room { OnOk result (kept_in self.old ≤ limit) }
        ensures limit { result ≡ Err SearchFault.Limit → Exceeds self.old limit }
        ensures err { OnErr result (Stays self.old self.new) }
        ensures runs { runs_of self.new ≡ runs_of self.old }
        ensures keeps { keeps_in self.new ≡ keeps_in self.old }
    {
        if self.is_over(limit) {
            return Err(SearchFault::Limit);
        }
        let elsewhere = self.kept_beside(file);
        let room = room_beside(elsewhere, limit);
        let (answered, count) = answer_on(&mut self.files, file, id, answer, room);
        self.kept = elsewhere + count as u128;
        answered
    }

    /// Whether the history may end so on each file: there was an order of its effects behind which each open wait waits still.
    ///
    /// `Limit` where more possibilities than the limit are kept, or would be, `Memory` where a growth was refused.
    pub fn may_end(&self, limit: usize) -> Result<bool, SearchFault>
        ensures ok { IfOk result (λ may_end. TellsEnd self.now may_end) }
        ensures room { OnOk result (kept_in self.now ≤ limit) }
        ensures limit { result ≡ Err SearchFault.Limit → Exceeds self.now limit }
    {
        if self.is_over(limit) {
            return Err(SearchFault::Limit);
        }
        for (file, history) in &self.files {
            let elsewhere = self.kept_beside(*file);
            if !history.may_end(room_beside(elsewhere, limit))? {
                return Ok(false);
            }
        }
        Ok(true)
    }

    /// The orders of all files, merged to one of lines that are of these files.
    pub fn order(&self, line_files: &[u64]) -> Result<Vec<FileHappening>, Memory>
        ensures { IfOk result (λ told. AreMerged self.now.files line_files.now told.items) }
    {
        let orders = self.orders()?;
        merged(self.alloc, orders, line_files)
    }

    /// The order of each file of which one is kept.
    fn orders(&self) -> Result<BTreeMap<u64, FileOrder>, Memory>
        ensures { IfOk result (λ orders. AreOrders self.now.files orders) }
    {
        let mut orders = BTreeMap::new(self.alloc);
        for (file, history) in &self.files {
            put_order(&mut orders, *file, history)?;
        }
        Ok(orders)
    }

    /// What is known of a file on which nothing was sent.
    fn fresh(&self) -> Result<FileHistory, Memory>
        ensures knows { IfOk result (λ history. KnowsFile (runs_of self.now) history []) }
        ensures keeps { IfOk result (λ history. keeps_in self.now ≡ true → keeps_order_of history ≡ true) }
    {
        if self.keeps {
            FileHistory::keeping_order(self.alloc, self.runs)
        } else {
            FileHistory::new(self.alloc, self.runs)
        }
    }

    /// Reads the first `>` on the file.
    fn send_first(&mut self, file: u64, request: Request, limit: usize) -> Result<(), SearchFault>
        requires free { file_in self.old file ≡ None }
        requires room { kept_in self.old ≤ limit }
        ensures ok { OnOk result (Takes self.old self.new file (Sent request)) }
        ensures limit { result ≡ Err SearchFault.Limit → Exceeds self.old limit }
        ensures err { OnErr result (Stays self.old self.new) }
        ensures runs { runs_of self.new ≡ runs_of self.old }
        ensures keeps { keeps_in self.new ≡ keeps_in self.old }
    {
        let room = room_beside(self.kept, limit);
        if room == 0 {
            return Err(SearchFault::Limit);
        }
        let mut history = self.fresh()?;
        history.send(request, room)?;
        let kept = self.kept + history.count() as u128;
        put_file(&mut self.files, file, history)?;
        self.kept = kept;
        Ok(())
    }

    /// Reads another `>` on the file.
    fn send_again(&mut self, file: u64, request: Request, limit: usize) -> Result<(), SearchFault>
        requires entry { file_in self.old file ≢ None }
        requires free { IsFreeOn (file_in self.old file) request.id }
        requires room { kept_in self.old ≤ limit }
        ensures ok { OnOk result (Takes self.old self.new file (Sent request)) }
        ensures limit { result ≡ Err SearchFault.Limit → Exceeds self.old limit }
        ensures err { OnErr result (Stays self.old self.new) }
        ensures runs { runs_of self.new ≡ runs_of self.old }
        ensures keeps { keeps_in self.new ≡ keeps_in self.old }
    {
        let elsewhere = self.kept_beside(file);
        let room = room_beside(elsewhere, limit);
        let (sent, count) = send_on(&mut self.files, file, request, room);
        self.kept = elsewhere + count as u128;
        sent
    }

    /// Whether more possibilities than the limit are kept.
    fn is_over(&self, limit: usize) -> bool
        ensures { IsTrue result ↔ (limit < kept_in self.now) }
    {
        self.kept > limit as u128
    }

    /// How many possibilities are kept of the other files.
    fn kept_beside(&self, file: u64) -> u128
        ensures { result ≡ kept_beside_of self.now file }
    {
        match self.files.get(&file) {
            Some(history) => self.kept.saturating_sub(history.count() as u128),
            None => self.kept,
        }
    }
}

/// Reads the `>` on a file that has an entry, and tells how many possibilities are kept of it then.
fn send_on(
    files: &mut BTreeMap<u64, FileHistory>,
    file: u64,
    request: Request,
    limit: usize,
) -> (Result<(), SearchFault>, usize)
    requires entry { get nat_cmp files.old file ≢ None }
    requires free { IsFreeOn (get nat_cmp files.old file) request.id }
    ensures { Rewrites files.old files.new file (λ old new. Sends old new request limit result.0 × (result.1 ≡ count_in new)) }
{
    let history = files.get_mut(&file).unwrap();
    let sent = history.send(request, limit);
    (sent, history.count())
}

/// Reads the `<` on a file that has an entry, and tells how many possibilities are kept of it then.
fn answer_on(
    files: &mut BTreeMap<u64, FileHistory>,
    file: u64,
    id: u64,
    answer: Answer,
    limit: usize,
) -> (Result<bool, SearchFault>, usize)
    requires { get nat_cmp files.old file ≢ None }
    ensures { Rewrites files.old files.new file (λ old new. Answers old new id answer limit result.0 × (result.1 ≡ count_in new)) }
{
    let history = files.get_mut(&file).unwrap();
    let answered = history.answer(id, answer, limit);
    (answered, history.count())
}

/// The file has this entry.
fn put_file(
    files: &mut BTreeMap<u64, FileHistory>,
    file: u64,
    history: FileHistory,
) -> Result<(), Memory>
    ensures ok { OnOk result (Inserts files.old files.new file history) }
    ensures ordered { IsOrdered nat_cmp files.old }
    ensures err { OnErr result (files.new.entries ≡ files.old.entries) }
{
    files.insert(file, history)?;
    Ok(())
}

/// The file has its order, where one is kept.
fn put_order(
    orders: &mut BTreeMap<u64, FileOrder>,
    file: u64,
    history: &FileHistory,
) -> Result<(), Memory>
    ensures { OnOk result (PutsOrder orders.old orders.new file history.now) }
{
    if let Some(order) = history.order()? {
        orders.insert(file, FileOrder::new(order))?;
    }
    Ok(())
}

/// How many possibilities the limit leaves beside those that are kept elsewhere.
fn room_beside(elsewhere: u128, limit: usize) -> usize
    ensures { result ≡ limit - elsewhere }
{
    (limit as u128).saturating_sub(elsewhere) as usize
}
