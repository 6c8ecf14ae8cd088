//! Laws of the definitions of the scenario language.
ghost use Rattle.std.specs.Prelude.{◌≡◌, ℕ, List, Ok};
ghost use Rattle.text_model.specs.Config.{ConfigData, config_of};
ghost use Rattle.text_model.specs.ScenarioData.{ScenarioData};
ghost use Rattle.text_model.specs.Scenario.{scenario_within};
ghost use Rattle.text_model.specs.ScenarioRules.{IsConfig, IsScenarioWithin, IsScenario, IsServed, IsScript};
ghost use Rattle.text_model.specs.Script.{script_of};
ghost use Rattle.text_model.specs.declared.limits.Limits.{Limits};

/// What is read of a config text keeps the limits of configs.
pub fn config_law()
    ensures { (text : List ℕ) (c : ConfigData) → config_of text ≡ Ok c → IsConfig c }
{}

/// What is read of a text keeps the limits of its reading; so what is read of a scenario text keeps those of scenarios.
pub fn scenario_law()
    ensures { (limits : Limits) (bytes : List ℕ) (s : ScenarioData) → scenario_within limits bytes ≡ Ok s → IsScenarioWithin limits s }
{}

/// What is read of a text is served: it has no dumps.
pub fn served_law()
    ensures { (limits : Limits) (bytes : List ℕ) (s : ScenarioData) → scenario_within limits bytes ≡ Ok s → IsServed s }
{}

/// The script of a device of such a scenario is one that can be played.
pub fn script_law()
    ensures { (s : ScenarioData) (device : ℕ) → IsScenario s → IsScript (script_of s device) }
{}
