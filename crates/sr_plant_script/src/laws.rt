//! What holds of every setup.

ghost use Rattle.std.specs.Prelude.{◌≡◌, true};
ghost use Rattle.sr_plant.specs.Building.{is_plant};
ghost use Rattle.sr_plant_script.specs.declared.setup.PlantSetup.{PlantSetup};
ghost use Rattle.sr_plant_script.specs.Members.{new_nodes};

/// The new nodes of every setup make a plant: they are so many as are joined so, each is of its kind in the topology, and
/// has an address of its own.
pub fn setups_make_plants()
    ensures { (setup : PlantSetup)
        → is_plant setup.topology (new_nodes setup.topology setup.settings setup.nodes) ≡ true }
{}
