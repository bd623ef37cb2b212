//! How far a record goes without a gap.

ghost use Rattle.std.specs.Prelude.{◌≡◌, OnOk, OnErr};
ghost use Rattle.std.specs.FinMap.{empty};
ghost use Rattle.std.specs.Ordering.{nat_cmp, ord_max};
ghost use Rattle.lattice_core.specs.Greatest.{greater_join};
ghost use Rattle.lattice_core.specs.Keep.{numbers_exact};
ghost use Rattle.replica_core.specs.Front.{AreFromOneOn, raised, reach_of};
ghost use Rattle.replica_core.specs.FrontShown.{reaches_shown};

use lattice_core::{Join, JoinMap, Keep, NoMemory};
use std::alloc::{Allocator, Global};
use std::marker::Model;

/// A row of a journal: what a site stamped under a start. Rows are in the order of their sites, then of their starts.
#[derive(Clone, Copy, Debug, PartialEq, Eq, PartialOrd, Ord)]
pub struct Row {
    pub site: u16,
    pub start: u32,
}

impl Keep for Row {
    ghost use Rattle.std.specs.Prelude.{refl, ℕ};
    ghost use Rattle.replica_core.specs.Front.{row_order, rows_exact};

    ghost Shape = { ℕ × ℕ };

    ghost shape = { λ row. (row.site, row.start) };

    ghost order = { row_order };

    ghost compares = { λ a b. refl };

    ghost ordered = { rows_exact };

    fn copy(&self) -> Result<Row, NoMemory>
        ensures { result ≡ Ok self.now }
    {
        Ok(*self)
    }
}

/// How far a front reaches into a row. Two reaches join to the greater one.
#[derive(Clone, Copy, Debug, PartialEq, Eq, PartialOrd, Ord)]
pub struct Reach {
    seq: u64,
}

impl Model for Reach {
    ghost use Rattle.std.specs.Prelude.{ℕ};

    ghost Value = { ℕ };

    ghost view = { λ r. r.seq };

    ghost inverse = { λ n. record { seq = n } };
}

impl Reach {
    /// The sequence number that is reached.
    pub fn seq(self) -> u64
        ensures { result ≡ self }
    {
        self.seq
    }
}

/// Takes no memory.
impl Join for Reach {
    ghost use Rattle.std.specs.Prelude.{ℕ};

    ghost Shape = { ℕ };

    ghost shape = { λ r. r };

    ghost joined = { ord_max nat_cmp };

    ghost is_infallible = { Unit {0} };

    ghost laws = { greater_join numbers_exact };

    fn join(&mut self, other: Reach) -> Result<(), NoMemory> {
        if self.seq <= other.seq {
            self.seq = other.seq;
        }
        Ok(())
    }

    fn covers(&self, other: &Reach) -> bool {
        self.seq >= other.seq
    }

    fn same(&self, other: &Reach) -> bool {
        self.seq == other.seq
    }

    fn copy(&self) -> Result<Reach, NoMemory>
        ensures { result ≡ Ok self.now }
    {
        Ok(*self)
    }
}

/// How far a record goes without a gap, row by row. Contracts see a finite map from rows to the sequence numbers that
/// are reached, each at least 1.
#[derive(Drop)]
pub struct Front<A: Allocator + Copy = Global> {
    rows: JoinMap<Row, Reach, A>,
}

impl<A: Allocator + Copy> Model for Front<A> {
    ghost use Rattle.replica_core.specs.Front.{Reaches, AreFromOneOn};
    ghost use Rattle.replica_core.specs.FrontShown.{reaches_shown, reaches_code};

    ghost Value = { Reaches };

    ghost coded = { reaches_code };

    ghost view = { λ f. reaches_shown f.rows };

    ghost invariant = { λ f. AreFromOneOn (reaches_shown f.rows) };
}

impl<A: Allocator + Copy> Front<A> {
    /// The empty front. It takes no memory.
    pub fn new(alloc: A) -> Front<A>
        ensures { result ≡ empty }
    {
        Front {
            rows: JoinMap::new(alloc),
        }
    }

    /// How far the front reaches into a row: 0 where it doesn't. It costs O(log n) for n rows.
    pub fn reach(&self, row: Row) -> u64
        ensures { result ≡ reach_of self.now row.site row.start }
    {
        match self.rows.get(&row) {
            Some(reach) => reach.seq,
            None => 0,
        }
    }

    /// Keeps the greater of the number and the one that the row has; 0 changes nothing. Where memory is refused nothing
    /// changes. It costs O(log n) for n rows.
    pub fn raise(&mut self, row: Row, seq: u64) -> Result<(), NoMemory>
        ensures ok { OnOk result (self.new ≡ raised self.old row.site row.start seq) }
        ensures err { OnErr result (self.new ≡ self.old) }
    {
        if seq == 0 {
            return Ok(());
        }
        self.rows.join_at(row, Reach { seq })
    }

    /// The rows that the front reaches into, in their order, with how far it does.
    pub fn rows(&self) -> &JoinMap<Row, Reach, A>
        ensures rows { reaches_shown result.now ≡ self.now }
        ensures reached { AreFromOneOn self.now }
    {
        &self.rows
    }
}
