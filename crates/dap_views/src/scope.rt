//! The scopes of a frame.
ghost use Rattle.std.specs.Prelude.{◌≡◌};
ghost use Rattle.dap_views.specs.Scopes.{is_expensive, scope_name, scopes};

use dap_variables::Container;
use stops::EditorThread;

/// Returns the scopes of a thread's frame, in order.
pub fn scopes(thread: EditorThread) -> [Container; 7]
    ensures { result ≡ scopes thread }
{
    [
        Container::Thread(thread),
        Container::Rings,
        Container::Requests,
        Container::Objects,
        Container::Memory,
        Container::Changes,
        Container::Findings,
    ]
}

/// Returns the name of a scope. Other containers have none.
pub(crate) fn scope_name(scope: Container) -> &'static str
    ensures { result.now ≡ scope_name scope }
{
    match scope {
        Container::Thread(_) => "Thread",
        Container::Rings => "Rings",
        Container::Requests => "Requests",
        Container::Objects => "Objects",
        Container::Memory => "Memory",
        Container::Changes => "Changes",
        Container::Findings => "Findings",
        _ => "",
    }
}

/// Returns whether an editor opens a scope only on request.
pub(crate) fn is_expensive(scope: Container) -> bool
    ensures { result ≡ is_expensive scope }
{
    matches!(scope, Container::Findings)
}
