ghost use Rattle.std.specs.Prelude.{◌≡◌, ◌⊎◌, ◌≤◌, ◌<◌, ◌↔◌, ℕ};
ghost use Rattle.cs_device.specs.Rise.{risen_by, top_by};
ghost use Rattle.cs_device.specs.declared.clock.Tick.{Tick};
ghost use Rattle.cs_device.specs.declared.clock.Tick.TheVariants.{At};

/// Lemma. The risen minutes count the answers that are later than all before.
pub fn risen_minutes()

    // an answer is counted exactly if it is a minute later than all before
    ensures risen { (top : ℕ) (t : Tick)
        → (risen_by top t ≡ 1) ↔ ((m : ℕ) × (t ≡ At m) × (top < m)) }
    ensures once { (top : ℕ) (t : Tick) → (risen_by top t ≡ 0) ⊎ (risen_by top t ≡ 1) }

    // the greatest minute is one of the minutes, and none is later
    ensures above { (top : ℕ) (t : Tick) → top ≤ top_by top t }
    ensures told { (top m : ℕ) → m ≤ top_by top (At m) }
    ensures one { (top : ℕ) (t : Tick) → (top_by top t ≡ top) ⊎ (t ≡ At (top_by top t)) }

    // so it grows exactly if an answer is counted
    ensures grows { (top : ℕ) (t : Tick) → (top < top_by top t) ↔ (risen_by top t ≡ 1) }
{}
