//! Theorems about the definitions in specs/.
ghost use Rattle.std.specs.Prelude.{◌≡◌, ◌<◌, ℕ, List, None, false, length};
ghost use Rattle.scenario.specs.Setups.{setup_refusal};
ghost use Rattle.scenario.specs.declared.event.Event.{Event};
ghost use Rattle.scenario.specs.declared.setup.Setup.{Setup};
ghost use Rattle.machine.specs.Runs.{start, run};
ghost use Rattle.machine.specs.Whole.{WellFormed};
ghost use Rattle.prompt_order.specs.Prompt.{IsPrompt};
ghost use Rattle.quiescence.specs.Over.{IsOver};
ghost use Rattle.sampling.specs.Samples.{IsSample};
ghost use Rattle.sampling.specs.declared.draws.SampleOptions.{SampleOptions};

/// A seed and a run number determine a sample.
pub fn repeatable()
    ensures { (setup : Setup) (options : SampleOptions) (seed number : ℕ) (a b : List Event)
        → IsSample setup options seed number a → IsSample setup options seed number b → a ≡ b }
{}

/// A sample with fewer events than the greatest number leaves a machine that is over.
pub fn ends_over()
    ensures { (setup : Setup) (options : SampleOptions) (seed number : ℕ) (es : List Event)
        → setup_refusal setup ≡ None → WellFormed (start setup)
        → IsSample setup options seed number es → length es < options.most
        → IsOver (run (start setup) es) }
{}

/// A sample is prompt, unless it may be late.
pub fn is_prompt()
    ensures { (setup : Setup) (options : SampleOptions) (seed number : ℕ) (es : List Event)
        → options.late ≡ false → IsSample setup options seed number es → IsPrompt setup es }
{}
