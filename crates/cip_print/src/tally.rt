// How many units of records have which outcome.
ghost use Rattle.std.specs.Prelude.{◌≡◌, ◌<◌, ◌≤◌, ◌+◌, ◌^◌, IfOk, string_bytes};
ghost use Rattle.cip_print.specs.Tallies.{nothing, counted, no_units, with_outcome, with_units, units_part, summary_line};

use crate::answer::{Answer, UnitAnswers};
use cip_mol::Outcome;
use std::alloc::{AllocError, Global};
use std::marker::Model;

/// How many records there are, how many of them are refused, and how many of their units have which outcome.
#[derive(Drop)]
pub struct Tally {
    records: u32,
    refused: u32,
    labels: u64,
    over: u64,
    ties: u64,
    none: u64,
}

impl Model for Tally {
    ghost use Rattle.std.specs.Prelude.{◌≤◌, ◌+◌, ◌*◌};
    ghost use Rattle.cip_print.specs.Tallies.{Counts};

    ghost Value = { Counts };

    ghost view = { λ tally. record {
      records = tally.records;
      refused = tally.refused;
      labels = tally.labels;
      over = tally.over;
      ties = tally.ties;
      none = tally.none;
    } };

    // A record has fewer units than 2^32.
    ghost invariant = { λ tally. (tally.refused ≤ tally.records)
        × (tally.labels + tally.over + tally.ties + tally.none ≤ tally.records * 4294967296) };
}

/// How many units of a record have which outcome.
#[derive(Clone, Copy)]
pub struct UnitCounts {
    pub labels: u32,
    pub over: u32,
    pub ties: u32,
    pub none: u32,
}

impl Tally {
    /// No record.
    pub fn new() -> Tally
        ensures { result ≡ nothing }
    {
        Tally {
            records: 0,
            refused: 0,
            labels: 0,
            over: 0,
            ties: 0,
            none: 0,
        }
    }

    /// Counts a record more.
    pub fn count(&mut self, answer: &Answer)
        requires { self.old.records < 2 ^ 31 }
        ensures counted { self.new ≡ counted self.old answer.now }
        ensures one { self.new.records ≡ self.old.records + 1 }
    {
        self.records += 1;
        match answer {
            Answer::Labelled(units) => {
                let counts = counts_of(units);
                self.labels += u64::from(counts.labels);
                self.over += u64::from(counts.over);
                self.ties += u64::from(counts.ties);
                self.none += u64::from(counts.none);
            }
            Answer::Refused(_) => self.refused += 1,
        }
    }

    /// The counts in one line.
    pub fn line(&self, alloc: Global) -> Result<Vec<u8>, AllocError>
        ensures { IfOk result (λ line. line.items ≡ summary_line self.now) }
    {
        let Ok(units) = self.units_part(alloc) else {
            return Err(AllocError);
        };
        let records = self.records;
        let refused = self.refused;
        match format!(in alloc; "records {records} refused {refused}{units}") {
            Ok(line) => Ok(line.into_bytes()),
            Err(error) => Err(error),
        }
    }

    #[tactic(auto, unfolding(crate::specs::Tallies::units_part))]
    fn units_part(&self, alloc: Global) -> Result<String, AllocError>
        ensures { IfOk result (λ part. string_bytes part ≡ units_part self.now) }
    {
        let labels = self.labels;
        let over = self.over;
        let ties = self.ties;
        let none = self.none;
        format!(in alloc; " labels {labels} over {over} ties {ties} none {none}\n")
    }
}

fn counts_of(units: &UnitAnswers) -> UnitCounts
    ensures counted { result ≡ with_units no_units units.now }
    ensures few { result.labels + result.over + result.ties + result.none < 4294967296 }
{
    let mut counts = UnitCounts {
        labels: 0,
        over: 0,
        ties: 0,
        none: 0,
    };
    for place in 0..units.len() {
        counts = with_outcome(counts, &units.get(place).outcome);
    }
    counts
}

fn with_outcome(counts: UnitCounts, outcome: &Outcome) -> UnitCounts
    requires { counts.labels + counts.over + counts.ties + counts.none < 4294967295 }
    ensures counted { result ≡ with_outcome counts outcome.now }
    ensures one { result.labels + result.over + result.ties + result.none
        ≡ counts.labels + counts.over + counts.ties + counts.none + 1 }
{
    let mut counts = counts;
    match outcome {
        Outcome::Label(_) => counts.labels += 1,
        Outcome::Over => counts.over += 1,
        Outcome::Tie => counts.ties += 1,
        Outcome::NoGeometry(_) => counts.none += 1,
    }
    counts
}
