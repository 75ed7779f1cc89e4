//! Laws of ticks and rounds, of the starts that workers take, of late runs, and of stamps.
ghost use Rattle.std.specs.Prelude.{◌≡◌, ◌↔◌, ◌<◌, ℕ, [], Err, List, Ok, OnOk, Option, Result, Some, false};
ghost use Rattle.cs_anacrontab.specs.Anacrontab.{JobLine};
ghost use Rattle.cs_daemon.specs.Deeds.{AreHandedOut};
ghost use Rattle.cs_daemon.specs.Late.{is_late};
ghost use Rattle.cs_daemon.specs.Rest.{IsLeftIn};
ghost use Rattle.cs_daemon.specs.Shelf.{HaveNames, Holds, Reads, Shelf, Writes};
ghost use Rattle.cs_daemon.specs.Stamps.{AreKept, IsOnlyRead};
ghost use Rattle.cs_daemon.specs.Starts.{IsRound, Rounds, desk, starts_in};
ghost use Rattle.cs_daemon.specs.Ticked.{IsFull, Wrote};
ghost use Rattle.cs_plan.specs.Plan.{Declared};
ghost use Rattle.cs_history.specs.History.{IsWithin, Start, same_run};
ghost use Rattle.cs_history.specs.Journal.{IsJournal};
ghost use Rattle.cs_history.specs.Lists.{EachPair};
ghost use Rattle.cs_history.specs.Plan.{Plan};
ghost use Rattle.cs_history.specs.Step.{State};
ghost use Rattle.cs_history.specs.declared.event.Event.{Event};
ghost use Rattle.cs_history.specs.declared.run.Going.{Going};
ghost use Rattle.cs_history.specs.declared.reply.Reply.{Reply};
ghost use Rattle.cs_keep.specs.Keeping.{Keeping, plan_of};
ghost use Rattle.cs_keep.specs.Seat.{Place};
ghost use Rattle.cs_keep.specs.Tick.{Ticks, tick_events};
ghost use Rattle.cs_keep.specs.declared.tick.TickFault.{TickFault};
ghost use Rattle.cs_keep.specs.declared.tick.TickFault.TheVariants.{ClockBack, HistoryFull, OutOfMemory};

use cs_history::names_differ;

/// Lemma. The starts that workers got, then those still to be taken, are the starts of all
/// journals, in order: each is handed out at most once, and none is lost.
#[tactic(auto, using(crate::proofs::Handing::handed_out))]
pub fn starts_are_handed_out()
    ensures { AreHandedOut }
{}

/// Lemma. No two starts of a journal are of one run, if no anacron job is due on the day of its
/// stamp. Of journals after a cut nothing is said.
pub fn starts_differ()
    ensures { (p : Plan) (base : Start) (es : List (Event × Reply)) (s : State)
        → ((j day : ℕ) → p.owed j (Some day) day ≡ false) → IsJournal p base es s
        → EachPair (λ r q. same_run r q ≡ false) (starts_in es) }
{
    names_differ();
}

/// Lemma. A tick from the present minute on writes the events of its minute into the journal. If
/// the clock went back, all stays as it was. If the journal is full, or memory runs out, the first
/// events are written; a full journal has no room for the next one.
pub fn what_a_tick_says()
    ensures done { (t u : Keeping × Place) (last m : ℕ) (v : Unit {0})
        → Ticks t last m (Ok v) u
        → Wrote t last m u (tick_events m (plan_of t.0) t.0.core.state) [] }
    ensures back { (t u : Keeping × Place) (last m : ℕ) → Ticks t last m (Err ClockBack) u
        → (u ≡ t) × (t.0.core.state.now ≡ last → m < last) }
    ensures full { (t u : Keeping × Place) (last m : ℕ) → Ticks t last m (Err HistoryFull) u
        → IsFull t last m u }
    ensures memory { (t u : Keeping × Place) (last m : ℕ) → Ticks t last m (Err OutOfMemory) u
        → (came left : List Event) × Wrote t last m u came left }
{}

/// Lemma. A round of the clock's thread makes no end, and leads to its minute if its tick isn't
/// refused.
pub fn what_a_round_says()
    ensures ends { (old new : Keeping × Place) (from last m to : ℕ)
        (r : Result (Unit {0}) TickFault) → IsRound old from last m r new to
        → Rounds (desk old.0 from) (desk new.0 to) }
    ensures now { (old new : Keeping × Place) (from last m to : ℕ)
        (r : Result (Unit {0}) TickFault) → IsRound old from last m r new to
        → OnOk r (new.0.core.state.now ≡ m) }
{}

/// Lemma. A run is late just when it isn't within its declared time.
pub fn what_late_means()
    ensures { (p : Plan) (t : ℕ) (r : Going) → (is_late p t r ≡ false) ↔ IsWithin p t r }
{}

/// Lemma. A keep that was left in a minute shows that minute, and nothing runs.
pub fn what_is_left()
    ensures runs { (k : Keeping) (m : ℕ) → IsLeftIn k m → k.core.state.running ≡ [] }
    ensures now { (k : Keeping) (m : ℕ) → IsLeftIn k m → k.core.state.now ≡ m }
{}

/// Lemma. A store that does what it is asked ends with each stamp of the keep under its job's
/// identifier, if no two jobs have one identifier. Without a keep it is unchanged.
pub fn what_a_store_holds()
    ensures held { (d : Declared) (stamps : List (Option ℕ)) (old new : Shelf)
        → HaveNames d.anacrontab.lines → AreKept Reads Writes d stamps old new
        → Holds d.anacrontab.lines stamps new }
    ensures untouched { (lines : List JobLine) (old new : Shelf)
        → IsOnlyRead Reads lines old new → new ≡ old }
{}
