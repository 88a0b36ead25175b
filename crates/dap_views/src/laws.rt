//! Laws of containers' references, threads' numbers, and the values of expressions.
ghost use Rattle.std.specs.Prelude.{◌≡◌, ◌≢◌, ◌<◌, ◌++◌, ℕ, List, Some, codes};
ghost use Rattle.scenario.specs.declared.setup.Setup.{Setup};
ghost use Rattle.stops.specs.declared.steps.EditorThread.{EditorThread};
ghost use Rattle.debug_server.specs.Replies.{Answer, reply};
ghost use Rattle.debug_server.specs.SessionStates.{SessionState};
ghost use Rattle.dap_variables.specs.Containers.{container_of, number_of, reference_of};
ghost use Rattle.dap_views.specs.Evaluations.{evaluation};
ghost use Rattle.dap_views.specs.Threads.{HasThread, thread_id, thread_of};
ghost use Rattle.dap_variables.specs.declared.container.Container.{Container};
ghost use Rattle.dap_variables.specs.declared.variable.Variable.{Variable};

/// A container is read back from its reference.
pub fn references_name_containers()
    ensures { (c : Container) → number_of c < 65536 → container_of (reference_of c) ≡ Some c }
{}

/// A reference that is read is that of the container.
pub fn references_are_exact()
    ensures { (r : ℕ) (c : Container) → container_of r ≡ Some c → reference_of c ≡ r }
{}

/// A thread is found by its number.
pub fn numbers_name_threads()
    ensures { (s : Setup) (t : EditorThread) → HasThread s t
        → thread_of s (thread_id s t) ≡ Some t }
{}

/// The value of a place is what the session prints for `show` at the same position.
pub fn values_are_shown()
    ensures { (v : SessionState) (text : List ℕ) (x : Variable) (answer : Answer)
        → text ≢ codes "moment" → evaluation v.walk text ≡ Some x
        → (reply v (codes "show " ++ text) answer).text ≡ x.value ++ codes "\n" }
{}
