//! What holds of the settings of a new queue. Each law is the contract of a function that does nothing.

ghost use Rattle.std.specs.Prelude.{◌≡◌, ◌⊎◌, ◌≤◌, ◌<◌, ◌*◌, ◌/◌, ℕ};
ghost use Rattle.cq_cycle.specs.declared.roll.Roll.{Roll};
ghost use Rattle.cq_layout.specs.declared.shape.TheConstants.{MAX_CELLS};
ghost use Rattle.cq_model.specs.Settings.{IsLawfulSettings};
ghost use Rattle.cq_new.specs.Made.{IsGiven, IsMadeOf, count_for, settings_with};
ghost use Rattle.cq_new.specs.declared.making.TheConstants.{SPACING};
ghost use Rattle.cq_orders.specs.declared.settings.NewSettings.{NewSettings};
ghost use Rattle.cq_settings.specs.declared.settings.InitSettings.{InitSettings};

/// What was not given is no reason to refuse the settings: if they are lawful with any index, and with any number of cycles
/// unless that was given, they are lawful as they are.
pub fn what_is_chosen_is_lawful()
    ensures { (given : NewSettings) (made : InitSettings) (roll : Roll) (index_count index_spacing cycles : ℕ) → IsMadeOf given made
        → IsGiven given.cycles cycles → IsLawfulSettings (settings_with made roll index_count index_spacing cycles)
        → IsLawfulSettings (settings_with made roll made.index_count made.index_spacing made.cycles) }
{}

/// The index has room for as many messages as the cells, of which each takes two at least.
pub fn the_index_has_room()
    ensures { (cells : ℕ) → cells ≤ MAX_CELLS → cells ≤ 2 * (count_for cells * (count_for cells * SPACING)) }
{}

/// With half as many entries it has not, unless it has the fewest that it may have.
pub fn the_index_is_small()
    ensures { (cells : ℕ) → (count_for cells ≡ 8)
        ⊎ (2 * ((count_for cells / 2) * ((count_for cells / 2) * SPACING)) < cells) }
{}
