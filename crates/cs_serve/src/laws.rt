//! What the status and the keep of a served order to run say.
ghost use Rattle.std.specs.Prelude.{◌≡◌, ◌⊎◌, ◌≤◌, ℕ, IfSome, codes};
ghost use Rattle.cs_args.specs.Asked.{AskedRun};
ghost use Rattle.cs_ruling.specs.Answer.{IsOrder};
ghost use Rattle.cs_ruling.specs.declared.answer.Order.{Order};
ghost use Rattle.cs_ruling.specs.declared.check.Claimed.{Claimed};
ghost use Rattle.cs_keep.specs.Closed.{keeping_in};
ghost use Rattle.cs_serve.specs.Anew.{IsOrderOf};
ghost use Rattle.cs_files.specs.Ending.{Sink, Tries};
ghost use Rattle.cs_serve.specs.Serve.{IsServed};
ghost use Rattle.cs_serve.specs.Served.{AreCounted, HasNoClock, IsDone, IsFull, IsOrdered};

/// Lemma. The keep of a served order has the plan of the order, and its journal is a legal history.
/// If each run in it has ended within its declared time, it is safe: at no moment did two runs of
/// one exclusive group run at once, two that share its lock excepted, and the capacity was never
/// exceeded.
pub fn what_a_served_order_keeps()
    ensures { (a : AskedRun) (x : Claimed) (order : Order) (old new : Sink) (status : ℕ)
        → IsOrder a x order → (s : IsServed order old new status)
        → IfSome s.1.end.keep (λ kept. IsOrdered order.checked (keeping_in kept)) }
{}

/// Lemma. So does the keep of each order that follows it.
pub fn what_a_next_order_keeps()
    ensures { (a : AskedRun) (order : Order) (old new : Sink) (status : ℕ) → IsOrderOf a order
        → (s : IsServed order old new status)
        → IfSome s.1.end.keep (λ kept. IsOrdered order.checked (keeping_in kept)) }
{}

/// Lemma. What the status of a served order says, of new devices. 0: the clock said to stop, or its
/// last minute has come. 1: the history is full. 6: the clock failed or went back. 5: memory ran
/// out. Each event is the clock's or a worker's.
pub fn what_a_status_says()
    ensures done { (order : Order) (old new : Sink) (status : ℕ)
        (s : IsServed order old new status) → status ≡ 0 → IsDone s.0 s.1.end old new }
    ensures full { (order : Order) (old new : Sink) (status : ℕ)
        (s : IsServed order old new status) → status ≡ 1 → IsFull s.1.end old new }
    ensures clock { (order : Order) (old new : Sink) (status : ℕ)
        (s : IsServed order old new status) → status ≡ 6 → HasNoClock s.0 old new }
    ensures memory { (order : Order) (old new : Sink) (status : ℕ)
        → IsServed order old new status → (status ≡ 0) ⊎ ((status ≡ 1) ⊎ ((status ≡ 6)
        ⊎ ((status ≡ 5) × Tries (codes "cronsafe: out of memory\n") old new))) }
    ensures events { (order : Order) (old new : Sink) (status : ℕ)
        (s : IsServed order old new status) → AreCounted order.checked s.1.end }
    // No failure of a stamp is counted that the store didn't have.
    ensures faults { (order : Order) (old new : Sink) (status : ℕ)
        (s : IsServed order old new status) → s.1.end.stamp_faults ≤ s.0.stamp_failures }
{}
