//! Theorems about the definitions in specs/.
ghost use Rattle.std.specs.Prelude.{List};
ghost use Rattle.prompt_order.specs.Prompt.{IsPrompt};
ghost use Rattle.scenario.specs.declared.event.Event.{Event};
ghost use Rattle.scenario.specs.declared.setup.Setup.{Setup};
ghost use Rattle.eager_runs.specs.Eager.{IsEager};

/// Eager runs are prompt.
pub fn is_prompt()
    ensures { (setup : Setup) (schedule events : List Event) → IsEager setup schedule events
        → IsPrompt setup events }
{}
