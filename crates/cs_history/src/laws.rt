ghost use Rattle.std.specs.Prelude.{◌≡◌, ◌↔◌, ◌++◌, ◌∷◌, [], ℕ, List, None, Some, Ok, false};
ghost use Rattle.cs_history.specs.History.{From, History, IsLegal, May, Start, same_run, ◌▸◌};
ghost use Rattle.cs_history.specs.Lists.{EachPair};
ghost use Rattle.cs_history.specs.Journal.{IsJournal};
ghost use Rattle.cs_history.specs.Names.{AreApart, AreNamed, started};
ghost use Rattle.cs_history.specs.Plan.{Plan};
ghost use Rattle.cs_history.specs.Step.{State, Steps, after, refusal, state_of};
ghost use Rattle.cs_history.specs.declared.event.Event.{Event};
ghost use Rattle.cs_history.specs.declared.reply.Reply.{Reply};

/// Lemma. The state before an event gives the state after it; and the events that may come next are
/// those that aren't refused.
#[tactic(auto, using(crate::proofs::Steps::stands, crate::proofs::Steps::legal))]
pub fn states_follow_histories()
    ensures stands { (p : Plan) (h : History) (e : Event)
        → state_of p (h ▸ e) ≡ after p (state_of p h) e }
    ensures legal { (p : Plan) (h : History) (e : Event) → (refusal p (state_of p h) e ≡ None)
        ↔ May p h e }
{}

/// Lemma. A journal with an accepted step at its end is a journal.
pub fn journals_grow()
    ensures { (p : Plan) (base : Start) (es : List (Event × Reply)) (old new : State) (e : Event)
        (r : Reply) → IsJournal p base es old → Steps p old e (Ok r) new
        → IsJournal p base (es ++ (e, r) ∷ []) new }
{}

/// Lemma. The runs in each state of a legal history have different names, in time or not.
pub fn names_differ()

    // nothing runs at a start
    ensures start { (p : Plan) (s : Start) → AreNamed p (state_of p (From s)) }

    // each event that is not refused keeps that
    ensures step { (p : Plan) (s : State) (e : Event) → refusal p s e ≡ None → AreNamed p s
        → AreNamed p (after p s e) }

    // and so each legal history does
    ensures history { (p : Plan) (h : History) → IsLegal p h → AreNamed p (state_of p h) }

    // so no two of its runs have one name
    ensures apart { (p : Plan) (s : State) → AreNamed p s → AreApart p s }

    // if no anacron job is due on the day of its stamp, no two runs that the history has started
    // have one name, ended or not
    ensures started { (p : Plan) (h : History) → ((j day : ℕ) → p.owed j (Some day) day ≡ false)
        → IsLegal p h → EachPair (λ r q. same_run r.run q.run ≡ false) (started p h) }
{}
