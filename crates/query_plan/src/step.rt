//! What a line does to a plan, and what is answered.

ghost use Rattle.std.specs.Prelude.{◌≡◌, IfErr, IfOk, OnOk};
ghost use Rattle.query_plan.specs.Stepping.{FailsSo, IsRefusedAnswer, IsRefusedLine, IsUnderWay, LosesQuery, StepsSo};
ghost use Rattle.query_plan.specs.Stepping.{silence};
ghost use Rattle.query_plan.specs.declared.line.Word.TheVariants.{Listed, Next, Whole};

use super::line::{Line, Word};
use super::notice::Notice;
use super::plan::Plan;
use super::schedule::{Failure, Query};
use lattice_core::NoMemory;
use std::alloc::Global;

/// What is answered to a line.
#[derive(Clone, Copy, Debug, PartialEq, Eq)]
pub struct Answer {
    /// The query that is given, where one was wanted.
    pub given: Option<Query>,
    /// What became of a query that failed.
    pub notice: Option<Notice>,
}

/// Why a line isn't answered.
#[derive(Clone, Copy, Debug, PartialEq, Eq)]
pub enum Unanswered {
    /// It speaks of an answer, and no query is under way.
    NoQuery,
    /// Memory was refused.
    NoMemory,
}

impl From<NoMemory> for Unanswered {
    ghost use Rattle.query_plan.specs.declared.step.Unanswered.TheVariants.{NoMemory};

    ghost from_gives = { λ _ fault. fault ≡ NoMemory };

    fn from(_error: NoMemory) -> Unanswered {
        Unanswered::NoMemory
    }
}

/// Nothing is answered.
fn silence() -> Answer
    ensures { result ≡ silence }
{
    Answer {
        given: None,
        notice: None,
    }
}

impl Plan {
    /// Does what a line says, and returns what is answered. Where a query is under way, `next` counts it as lost first.
    /// Refusals: `NoQuery`, the line speaks of an answer, and no query is under way: then nothing changed; `NoMemory`,
    /// memory was refused; the plan may have changed in part, and is no use from then on.
    pub fn step(&mut self, alloc: Global, line: Line) -> Result<Answer, Unanswered>
        ensures steps { IfOk result (λ answer. StepsSo line.word line.time self.old answer self.new) }
        ensures refused { IfErr result (IsRefusedLine line.word self.old self.new) }
    {
        match line.word {
            Word::Ask(change) => {
                self.ask(line.time, change, true)?;
                Ok(silence())
            }
            Word::Need(change) => {
                self.ask(line.time, change, false)?;
                Ok(silence())
            }
            Word::All => {
                self.want_all();
                Ok(silence())
            }
            Word::Next => self.answer_next(alloc, line.time),
            Word::Listed(change) => self.answer_listed(change),
            Word::Whole => self.answer_whole(alloc, line.time),
            Word::Refused => self.answer_failed(alloc, line.time, Failure::Refused),
            Word::Late => self.answer_failed(alloc, line.time, Failure::Late),
            Word::Lost => self.answer_failed(alloc, line.time, Failure::Lost),
        }
    }

    /// Gives the next query. One that is under way is lost.
    fn answer_next(&mut self, alloc: Global, now: u64) -> Result<Answer, Unanswered>
        ensures steps { IfOk result (λ answer. StepsSo Next now self.old answer self.new) }
        ensures refused { IfErr result (λ fault. fault ≡ Unanswered.NoMemory) }
    {
        let notice = self.lose_query(alloc, now)?;
        let given = self.next(alloc, now)?;
        Ok(Answer {
            given: Some(given),
            notice,
        })
    }

    /// Loses the query under way, if there is one.
    fn lose_query(&mut self, alloc: Global, now: u64) -> Result<Option<Notice>, NoMemory>
        ensures { IfOk result (λ notice. LosesQuery self.old.schedule.query now self.old notice self.new) }
    {
        match self.schedule.query {
            Query::Nothing => Ok(None),
            Query::All | Query::Changes => {
                let notice = self.end_badly(alloc, now, Failure::Lost)?;
                Ok(Some(notice))
            }
        }
    }

    /// Notes that the answer lists a change.
    fn answer_listed(&mut self, change: u32) -> Result<Answer, Unanswered>
        ensures steps { IfOk result (λ answer. StepsSo (Listed change) 0 self.old answer self.new) }
        ensures refused { IfErr result (IsRefusedLine (Listed change) self.old self.new) }
    {
        self.await_answer()?;
        self.list(change)?;
        Ok(silence())
    }

    /// The answer was whole.
    fn answer_whole(&mut self, alloc: Global, now: u64) -> Result<Answer, Unanswered>
        ensures steps { IfOk result (λ answer. StepsSo Whole now self.old answer self.new) }
        ensures refused { IfErr result (IsRefusedLine Whole self.old self.new) }
    {
        self.await_answer()?;
        self.end_well(alloc, now)?;
        Ok(silence())
    }

    /// The query under way failed.
    fn answer_failed(
        &mut self,
        alloc: Global,
        now: u64,
        failure: Failure,
    ) -> Result<Answer, Unanswered>
        ensures steps { IfOk result (λ answer. FailsSo failure now self.old answer self.new) }
        ensures refused { IfErr result (IsRefusedAnswer self.old self.new) }
    {
        self.await_answer()?;
        let notice = self.end_badly(alloc, now, failure)?;
        Ok(Answer {
            given: None,
            notice: Some(notice),
        })
    }

    /// Fails unless a query is under way.
    fn await_answer(&self) -> Result<(), Unanswered>
        ensures ok { OnOk result (IsUnderWay self.now) }
        ensures refused { IfErr result (λ fault. (fault ≡ Unanswered.NoQuery) × (self.now.schedule.query ≡ Query.Nothing)) }
    {
        match self.schedule.query {
            Query::Nothing => Err(Unanswered::NoQuery),
            Query::All | Query::Changes => Ok(()),
        }
    }
}
