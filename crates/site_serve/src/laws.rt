//! Laws of running sites: what they answer, and what they pull from each other.

ghost use Rattle.std.specs.Prelude.{◌≡◌, List, Option, true};
ghost use Rattle.gossip_line.specs.PassingOn.{AreNumbered, ShareNoTwins};
ghost use Rattle.gossip_line.specs.Session.{Moment};
ghost use Rattle.pull_guard.specs.declared.guard.Guard.{Guard};
ghost use Rattle.replica_core.specs.JournalLaws.{IsPartOf};
ghost use Rattle.review_ops.specs.Operation.{Operation};
ghost use Rattle.review_ops.specs.Timestamp.{Timestamp};
ghost use Rattle.site_ledger.specs.Keeping.{Entries};
ghost use Rattle.site_serve.specs.Acknowledged.{IsSaidBy, has_stamped};
ghost use Rattle.site_serve.specs.Openings.{IsOfOpening};
ghost use Rattle.site_serve.specs.TwoSites.{AreApartAndNumbered, GotNoMore, HoldTheSame, IsShownBy, PullsAllOf, Side};
ghost use Rattle.site_serve.specs.TwoSites.{record_seen, union};
ghost use Rattle.site_shared.specs.Accounts.{Outlook};
ghost use Rattle.site_shared.specs.Publishes.{arrive};

use super::opening::Opening;
use report_text::equal_states_print_the_same;
use site_ledger::Keeps;
use site_shared::later_journals_go_on;

/// A law: a running site whose pull ended well, the last answer having reported that nothing is left, sees all that the
/// other site had when it gave that answer, where no two operations of theirs share site, start and sequence number
/// without being one.
pub fn pulls_of_sites_pass_on_all()
    ensures { (shown : List (List Operation)) → (guard : Guard) → (before after : Moment Outlook)
        → PullsAllOf shown guard before after → AreNumbered (arrive shown)
        → ShareNoTwins (arrive shown) (record_seen after.port) → IsPartOf (arrive shown) (record_seen after.port) }
{
    later_journals_go_on();
}

/// A law: two running sites each of which pulled from the other, so that nothing was left, and to which nothing else
/// came meanwhile, both hold what the two had at first, and nothing more. So they have one state, print one state text,
/// and one report under each gate. No two of those operations may share site, start and sequence number without being
/// one.
pub fn sites_that_pulled_print_the_same()
    ensures { (one other : Side) → IsShownBy one other → IsShownBy other one → GotNoMore one other
        → AreApartAndNumbered (union one other) → HoldTheSame one other }
{
    pulls_of_sites_pass_on_all();
    later_journals_go_on();
    equal_states_print_the_same();
}

/// A law: whatever a crash leaves of what keeps a site's operations says an operation of each stamp of which the site
/// has published one, where that had the record of the opening. `OwnLedger` is always one of its opening, and a stamp
/// is answered with the receipt of a publish, which shows what its ledger has published.
pub fn answered_stamps_survive<J: Opening, K: Keeps>()
    ensures { (entries : Entries K) → (first : List Operation) → (stamp : Option Timestamp)
        → IsOfOpening K.holds K.survives J.book J.journal J.had entries → J.had first → IsPartOf J.journal first
        → has_stamped (arrive entries.account.published) stamp ≡ true → IsSaidBy (K.survives entries.keeper) stamp }
{}
