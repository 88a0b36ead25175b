//! Laws of the definitions.
ghost use Rattle.std.specs.Prelude.{◌≡◌, ◌==◌, ℕ, List, None, Ok};
ghost use Rattle.std.specs.List.{slice_split};
ghost use Rattle.places.specs.declared.place.Place.{Place};
ghost use Rattle.scenario.specs.Names.{place_named};
ghost use Rattle.scenario.specs.PlaceTexts.{place_text};
ghost use Rattle.scenario.specs.Setups.{setup_refusal};
ghost use Rattle.scenario.specs.declared.setup.Setup.{Setup};

/// The printed name of a place, split at its spaces, names the place.
pub fn printed_names_parse()
    ensures { (s : Setup) (words : List (List ℕ)) (p : Place) → setup_refusal s ≡ None
        → place_named s words ≡ Ok p
        → place_named s (slice_split (λ b. b == 32) (place_text s p)) ≡ Ok p }
{}
