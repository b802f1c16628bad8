//! The questions of the rules to a book. None takes memory.
ghost use Rattle.std.specs.Prelude.{◌≡◌, length, option_map, slice_get};
ghost use Rattle.cd_rules.specs.Openings.{open_on, is_in_use, is_receiving_for};
ghost use Rattle.cd_rules.specs.Processes.{own_home, is_own, submission, submitted, made_for, is_live, live_numbers, latest, is_forgotten, is_over};
ghost use Rattle.cd_rules.specs.Queue.{placing, next_due};
ghost use Rattle.cd_rules.specs.Status.{status, outcome, mark, starts, last_receiving};
ghost use Rattle.cd_rules.specs.Steps.{process_of, runs_itself, next_place, what_at};
ghost use Rattle.cd_book.specs.Seen.{seen_status, seen_submission};

use crate::book::Book;
use crate::status::Status;
use crate::submission::Submission;
use crate::texts::Texts;
use crate::{home, openings, process, queue, step, walk};
use cd_ast::{Process, Stmt, What};
use cd_types::{Key, Moment, NodeName, Outcomes, Placing, ProcNo, Receiving, Row};

fn nth(processes: &[Process], at: usize) -> Option<&Process>
    ensures { option_map (λ process. process.now) result ≡ slice_get processes.now at }
{
    processes.get(at)
}

impl<T: Texts> Book<T> {
    /// The node's name and its home identity.
    pub fn own_home(&self) -> Option<(NodeName, u64)>
        ensures { result ≡ own_home self.now.entries }
    {
        home::own_home(&self.entries)
    }

    /// Whether it is a step of a Process of this node.
    pub fn is_own(&self, key: &Key) -> bool
        ensures { result ≡ is_own self.now.entries key.now }
    {
        home::is_own(&self.entries, key)
    }

    /// How far a step is.
    pub fn status(&self, key: &Key) -> Status<'_>
        ensures { seen_status result ≡ status self.now.entries key.now }
    {
        step::status(&self.entries, key)
    }

    /// The outcome of a step.
    pub fn outcome(&self, key: &Key) -> Option<Outcomes>
        ensures { result ≡ outcome self.now.entries key.now }
    {
        step::outcome(&self.entries, key)
    }

    /// The last mark of a step behind its last Receiving, else 0.
    pub fn mark(&self, key: &Key) -> u64
        ensures { result ≡ mark self.now.entries key.now }
    {
        step::mark(&self.entries, key)
    }

    /// How often a step was started.
    pub fn starts(&self, key: &Key) -> u32
        ensures { result ≡ starts self.now.entries key.now }
    {
        step::starts(&self.entries, key)
    }

    /// The last Receiving of a step.
    pub fn receiving_of(&self, key: &Key) -> Option<&Receiving>
        ensures { option_map (λ r. r.now) result ≡ last_receiving self.now.entries key.now }
    {
        step::last_receiving(&self.entries, key)
    }

    /// The receiving that is open on a file.
    pub fn receiving(&self, name: &[u8]) -> Option<&Receiving>
        ensures { option_map (λ r. r.now) result ≡ open_on self.now.entries name.now }
    {
        openings::open_on(&self.entries, name)
    }

    /// Whether a step other than this one receives the file.
    pub fn is_in_use(&self, key: &Key, name: &[u8]) -> bool
        ensures { result ≡ is_in_use self.now.entries key.now name.now }
    {
        openings::is_in_use(&self.entries, key, name)
    }

    /// Whether a step of this Process of another node receives a file.
    pub fn is_receiving_for(&self, name: &NodeName, home: u64, number: ProcNo) -> bool
        ensures { result ≡ is_receiving_for self.now.entries name.now home number }
    {
        openings::is_receiving_for(&self.entries, name, home, number)
    }

    /// What was submitted under a number.
    pub fn submission(&self, number: ProcNo) -> Option<Submission<'_>>
        ensures { option_map seen_submission result ≡ submission self.now.entries number }
    {
        process::submission(&self.entries, number)
    }

    /// How many Processes were submitted.
    pub fn submitted(&self) -> u32
        ensures { result ≡ submitted self.now.entries }
    {
        process::submitted(&self.entries)
    }

    /// The number of the Process that a SUBMIT step made.
    pub fn made_for(&self, key: &Key) -> Option<ProcNo>
        ensures { result ≡ made_for self.now.entries key.now }
    {
        process::made_for(&self.entries, key)
    }

    /// Whether a Process was submitted and isn't closed.
    pub fn is_live(&self, number: ProcNo) -> bool
        ensures { result ≡ is_live self.now.entries number }
    {
        process::is_live(&self.entries, number)
    }

    /// How many Processes are live.
    pub fn live(&self) -> u32
        ensures { result ≡ length (live_numbers self.now.entries) }
    {
        process::live(&self.entries)
    }

    /// The greatest moment that was recorded.
    pub fn latest(&self) -> u64
        ensures { result ≡ latest self.now.entries }
    {
        process::latest(&self.entries)
    }

    /// Whether nothing more is asked of the steps of a Process of another node.
    pub fn is_forgotten(&self, name: &NodeName, home: u64, number: ProcNo) -> bool
        ensures { result ≡ is_forgotten self.now.entries name.now home number }
    {
        process::is_forgotten(&self.entries, name, home, number)
    }

    /// Whether it is a step of such a Process.
    pub fn is_over(&self, key: &Key) -> bool
        ensures { result ≡ is_over self.now.entries key.now }
    {
        process::is_forgotten(&self.entries, &key.pnode, key.home, key.number)
    }

    /// Whether a Process runs itself, and not in copies.
    pub fn runs_itself(&self, number: ProcNo) -> bool
        ensures { result ≡ runs_itself self.now.entries number }
    {
        process::runs_itself(&self.entries, number)
    }

    /// Where a Process stands.
    pub fn placing(&self, number: ProcNo) -> Option<Placing>
        ensures { result ≡ placing self.now.entries number }
    {
        queue::placing(&self.entries, number)
    }

    /// The Process of a number.
    pub fn process(&self, number: ProcNo) -> Option<&Process>
        ensures { option_map (λ process. process.now) result ≡ process_of T.read self.now.entries number }
    {
        nth(&self.processes, number.number() as usize - 1)
    }

    /// The place of the next step of a Process, or the end of its statements.
    pub fn next_place(&self, number: ProcNo) -> usize
        ensures { result ≡ next_place T.read self.now.entries number }
    {
        match self.process(number) {
            Some(process) => walk::pending(process.stmts.as_slice(), &self.entries, number),
            None => 0,
        }
    }

    /// The statement at a place of a Process.
    pub fn what_at(&self, number: ProcNo, place: usize) -> Option<&What>
        ensures { option_map (λ what. what.now) result ≡ what_at T.read self.now.entries number place }
    {
        let process = self.process(number)?;
        let stmt: &Stmt = process.stmts.as_slice().get(place)?;
        Some(&stmt.what)
    }

    /// The statement that comes next in a Process.
    pub fn what_next(&self, number: ProcNo) -> Option<&What>
        ensures { option_map (λ what. what.now) result ≡ what_at T.read self.now.entries number (next_place T.read self.now.entries number) }
    {
        self.what_at(number, self.next_place(number))
    }

    /// The live Process that is taken next: in Wait or Execution, and none of the numbers that are busy.
    pub fn next_due(&self, now: Moment, busy: &[ProcNo]) -> Option<Row>
        ensures { result ≡ next_due self.now.entries now busy.now }
    {
        queue::next_due(&self.entries, now, busy)
    }
}
