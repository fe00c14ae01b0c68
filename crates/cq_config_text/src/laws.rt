//! Laws and worked examples of the text of a configuration. Each is the contract of a function that does nothing.

ghost use Rattle.std.specs.Prelude.{◌≡◌, ◌<◌, ◌^◌, ℕ, List, [], ◌∷◌, All, None, Some, codes, length};
ghost use Rattle.cq_cycle.specs.declared.roll.Roll.TheVariants.{Daily};
ghost use Rattle.cq_layout.specs.Layout.{layout_in};
ghost use Rattle.cq_layout.specs.Shape.{measures};
ghost use Rattle.cq_layout.specs.declared.store_record.StoreVersion.TheVariants.{First};
ghost use Rattle.cq_model.specs.Settings.{IsLawfulSettings, Settings, new_settings, settings_of};
ghost use Rattle.cq_config_text.specs.ConfigText.{IsTextOf, config_text, faulty_line};

/// The text of a new queue with one tailer, and the text of version 1. Neither has a faulty line.
pub fn a_configuration_has_its_text()
    ensures new { config_text (new_settings (measures 64 8 1) 4 Daily 0 (codes "reader" ∷ [])) (0 ∷ []) 0
        ≡ codes "cq 2\nroll daily\nepoch 0\ncells 64\ncount 8\nspacing 1\ncycles 4\nname reader 0\n" }
    ensures whole_new { faulty_line
        (codes "cq 2\nroll daily\nepoch 0\ncells 64\ncount 8\nspacing 1\ncycles 4\nname reader 0\n") ≡ None }
    ensures text { config_text (settings_of (layout_in First (measures 64 8 1)) 4 Daily 0 (codes "reader" ∷ [])) (0 ∷ []) 0
        ≡ codes "cq 1\nroll daily\nepoch 0\ncells 64\ncount 8\nspacing 1\ncycles 4\nname reader 0\n" }
    ensures whole { faulty_line
        (codes "cq 1\nroll daily\nepoch 0\ncells 64\ncount 8\nspacing 1\ncycles 4\nname reader 0\n") ≡ None }
{}

/// The text of that queue if its floor is 20005.
pub fn a_floor_has_its_line()
    ensures text { config_text (settings_of (layout_in First (measures 64 8 1)) 4 Daily 0 (codes "reader" ∷ [])) (0 ∷ []) 20005
        ≡ codes "cq 1\nroll daily\nepoch 0\ncells 64\ncount 8\nspacing 1\ncycles 4\nfloor 20005\nname reader 0\n" }
    ensures whole { faulty_line
        (codes "cq 1\nroll daily\nepoch 0\ncells 64\ncount 8\nspacing 1\ncycles 4\nfloor 20005\nname reader 0\n") ≡ None }
    ensures first { faulty_line
        (codes "cq 1\nroll daily\nepoch 0\ncells 64\ncount 8\nspacing 1\ncycles 4\nfloor 0\n") ≡ Some 8 }
    ensures once { faulty_line
        (codes "cq 1\nroll daily\nepoch 0\ncells 64\ncount 8\nspacing 1\ncycles 4\nfloor 1\nfloor 2\n") ≡ Some 9 }
    ensures behind { faulty_line
        (codes "cq 1\nroll daily\nepoch 0\ncells 64\ncount 8\nspacing 1\ncycles 4\nname a 0\nfloor 1\n") ≡ Some 9 }
{}

/// Texts with a faulty line.
pub fn the_first_faulty_line_is_told()
    ensures empty { faulty_line [] ≡ Some 1 }
    ensures version { faulty_line (codes "cq 3\nroll daily\n") ≡ Some 1 }
    ensures roll { faulty_line (codes "cq 1\nroll weekly\nx\n") ≡ Some 2 }
    ensures zeros { faulty_line (codes "cq 1\nroll daily\nepoch 00\n") ≡ Some 3 }
    ensures large { faulty_line (codes "cq 1\nroll daily\nepoch 18446744073709551616\n") ≡ Some 3 }
    ensures spaces { faulty_line (codes "cq 1\nroll daily\nepoch 18446744073709551615\ncells  64\n") ≡ Some 4 }
    ensures short { faulty_line (codes "cq 1\nroll daily\nepoch 0\ncells 64\n") ≡ Some 5 }
    ensures name { faulty_line (codes "cq 1\nroll daily\nepoch 0\ncells 64\ncount 8\nspacing 1\ncycles 4\nname a/b 0\n")
        ≡ Some 8 }
    ensures cut { faulty_line
        (codes "cq 1\nroll daily\nepoch 0\ncells 64\ncount 8\nspacing 1\ncycles 4\nname a 0\nname b 7") ≡ Some 9 }
{}

/// A text is that of at most one list of settings and positions and one floor.
pub fn a_text_says_one_configuration()
    ensures { (one other : Settings) (places positions : List ℕ) (floor start : ℕ) (text : List ℕ)
        → IsTextOf one places floor text → IsTextOf other positions start text
        → (one ≡ other) × (places ≡ positions) × (floor ≡ start) }
{}

/// The text of settings has no faulty line.
pub fn a_text_of_settings_has_no_faulty_line()
    ensures { (settings : Settings) (positions : List ℕ) (floor : ℕ) (text : List ℕ)
        → IsTextOf settings positions floor text → faulty_line text ≡ None }
{}

/// Lawful settings have a text, with any floor and any positions, one for each name.
pub fn lawful_settings_have_a_text()
    ensures { (settings : Settings) (positions : List ℕ) (floor : ℕ) → IsLawfulSettings settings
        → length positions ≡ length settings.names → All (λ position. position < 2 ^ 64) positions → floor < 2 ^ 64
        → IsTextOf settings positions floor (config_text settings positions floor) }
{}
