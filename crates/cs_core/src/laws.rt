ghost use Rattle.std.specs.Prelude.{◌≡◌, ◌<◌, Contains, List, None, false};
ghost use Rattle.cs_core.specs.Choices.{by_name, choice_for, choices, is_before};
ghost use Rattle.cs_history.specs.History.{History, IsLegal, May, pending};
ghost use Rattle.cs_history.specs.Lists.{EachPair};
ghost use Rattle.cs_history.specs.Plan.{IsCivil, Plan};
ghost use Rattle.cs_history.specs.Step.{State, refusal, state_of};
ghost use Rattle.cs_history.specs.declared.event.Event.{Event};
ghost use Rattle.cs_history.specs.declared.run.Run.{Run};

/// Lemma. The choices are exactly the events that may come next, one Up for all, and are in order.
pub fn choices_are_legal_events()

    // each choice may come next
    ensures choice { (p : Plan) (h : History) (e : Event) → Contains (choices p (state_of p h)) e
        → May p h e }

    // and what may come next is a choice, or an Up like one
    ensures legal { (p : Plan) (h : History) (e : Event) → IsLegal p h → May p h e
        → Contains (choices p (state_of p h)) (choice_for (state_of p h) e) }

    // so it is in any state
    ensures refused { (p : Plan) (s : State) (e : Event) → Contains (choices p s) e
        → refusal p s e ≡ None }
    ensures listed { (p : Plan) (s : State) (e : Event) → IsCivil s.now → refusal p s e ≡ None
        → Contains (choices p s) (choice_for s e) }

    // runs are listed by job, then minute
    ensures sorted { (rs : List Run) → EachPair (λ r q. is_before q r ≡ false) (by_name rs) }

    // pending jobs rise
    ensures rising { (p : Plan) (h : History) → EachPair (λ i j. i < j) (pending p h) }
{}
