ghost use Rattle.std.specs.Prelude.{◌≡◌, ◌≢◌, ℕ, List};
ghost use Rattle.cs_machine.specs.Files.{IsFileName, file_of, new_file_of};
ghost use Rattle.cs_machine.specs.Files.{drain_file_of, lock_file_of, reload_file_of, stop_file_of};

/// Lemma. Stamps have files of their own; new files and requests are at other paths.
#[tactic(auto, using(crate::proofs::Names::own_file, crate::proofs::Names::new_file_apart, crate::proofs::Names::stop_file_apart, crate::proofs::Names::stop_file_not_new, crate::proofs::Names::reload_file_apart, crate::proofs::Names::reload_file_not_new, crate::proofs::Names::drain_file_apart, crate::proofs::Names::drain_file_not_new, crate::proofs::Names::lock_file_apart, crate::proofs::Names::lock_file_not_new))]
pub fn files_differ()

    // each identifier has a file of its own
    ensures own { (folder a b : List ℕ) → file_of folder a ≡ file_of folder b → a ≡ b }

    // what is written first is at no identifier's path
    ensures apart { (folder a b : List ℕ) → IsFileName b → new_file_of folder a ≢ file_of folder b }

    // a request is at no identifier's path, and not where one is written first
    ensures stop { (folder a : List ℕ) → IsFileName a → stop_file_of folder ≢ file_of folder a }
    ensures stop_new { (folder a : List ℕ) → stop_file_of folder ≢ new_file_of folder a }
    ensures reload { (folder a : List ℕ) → IsFileName a → reload_file_of folder ≢ file_of folder a }
    ensures reload_new { (folder a : List ℕ) → reload_file_of folder ≢ new_file_of folder a }
    ensures drain { (folder a : List ℕ) → IsFileName a → drain_file_of folder ≢ file_of folder a }
    ensures drain_new { (folder a : List ℕ) → drain_file_of folder ≢ new_file_of folder a }

    // nor is a daemon's lock
    ensures lock { (folder a : List ℕ) → IsFileName a → lock_file_of folder ≢ file_of folder a }
    ensures lock_new { (folder a : List ℕ) → lock_file_of folder ≢ new_file_of folder a }
{}
