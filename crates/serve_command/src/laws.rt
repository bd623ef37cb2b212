//! What holds of sites that begin again, over the definitions alone.

ghost use Rattle.std.specs.Prelude.{IfSome, List, Option};
ghost use Rattle.replica_core.specs.Journal.{all_arrived};
ghost use Rattle.replica_core.specs.JournalLaws.{IsPartOf};
ghost use Rattle.review_ops.specs.Operation.{Operation};
ghost use Rattle.serve_command.specs.Restarts.{BeginsAgain, RunsAgain};

/// A law: a site that begins again by whatever a crash left of its journal has all that it had begun with, and all that
/// it had published since.
pub fn sites_that_begin_again_have_all()
    ensures { (begun first more again : List Operation) → BeginsAgain begun first more again
        → IsPartOf (all_arrived begun more) again }
{}

/// A law: all that a site with a journal left is in the record that a site begins with by whatever a crash left of that
/// journal, and in the one that it leaves in turn. `run_with_journal` promises just this of the runs that `serve` has.
pub fn what_a_site_left_is_there_again()
    ensures { (left begun : List Operation) → (later : Option (List Operation)) → RunsAgain left begun later
        → IsPartOf left begun × IfSome later (λ ops. IsPartOf left ops) }
{}
