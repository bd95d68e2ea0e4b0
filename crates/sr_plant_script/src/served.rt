//! A network whose hosts take what they are handed at each event.

ghost use Rattle.std.specs.Prelude.{◌≡◌, ◌≤◌, ◌<◌, ◌⊎◌, ◌++◌, ℕ, List, [], length, slice_set, slice_index_or, IfOk, IfErr, OnOk};
ghost use Rattle.sr_plant.specs.Limits.{most_members};
ghost use Rattle.sr_plant.specs.Steps.{PlantRefuses};
ghost use Rattle.sr_plant_script.specs.Members.{start_of};
ghost use Rattle.sr_plant_script.specs.Texts.{up_lines};
ghost use Rattle.sr_plant_script.specs.Happenings.{IsTaken};

use crate::network::Network;
use crate::printing::append_ups;
use crate::setup::PlantSetup;
use sr_plant::{PlantEvent, PlantFault};
use sr_text::Text;
use std::alloc::Global;
use std::marker::Model;

/// A network of which no host was handed anything that it did not take. Clauses see it as data.
#[derive(Drop)]
pub(crate) struct Served {
    network: Network,
}

impl Model for Served {
    ghost use Rattle.sr_plant.specs.Plants.{Plant};
    ghost use Rattle.sr_plant_script.specs.Happenings.{HasNothingUp};

    ghost Value = { Plant };

    ghost view = { λ s. s.network };

    ghost invariant = { λ s. HasNothingUp s.network };
}

// Prints what a node handed up, and lets it go, also where the text has no room for it.
fn take_up(network: &mut Network, node: usize, text: &mut Text) -> Result<(), PlantFault>
    requires { node < length network.old.handed }
    ensures told { OnOk result (text.new
        ≡ text.old ++ up_lines node (slice_index_or network.old.handed node [])) }
    ensures left { network.new
        ≡ record network.old { handed = slice_set network.old.handed node [] } }
    ensures err { IfErr result (λ fault. fault ≡ PlantFault.NoMemory) }
{
    let told = append_ups(text, node, network.handed_of(node));
    network.let_go_of(node);
    told?;
    Ok(())
}

impl Served {
    /// A new one. `NoMemory`: an allocation failed.
    pub(crate) fn new(alloc: Global, setup: &PlantSetup) -> Result<Served, PlantFault>
        ensures made { IfOk result (λ s. s ≡ start_of setup.now) }
        ensures lack { IfErr result (λ fault. fault ≡ PlantFault.NoMemory) }
    {
        let network = Network::new(alloc, setup)?;
        Ok(Served { network })
    }

    /// How many nodes it has.
    pub(crate) fn node_count(&self) -> usize
        ensures count { result ≡ length self.now.nodes }
        ensures few { result ≤ most_members }
    {
        self.network.node_count()
    }

    /// How many copies are in flight.
    pub(crate) fn in_flight(&self) -> usize
        ensures { result ≡ length self.now.flight }
    {
        self.network.in_flight()
    }

    /// An event happens whole, and what is handed up is printed and taken; or it is refused, and neither the network nor
    /// the text changes. `NoMemory` also where the text has no room for what is handed up.
    pub(crate) fn serve(&mut self, event: &PlantEvent, text: &mut Text) -> Result<(), PlantFault>
        ensures ok { OnOk result ((told : List ℕ)
            × IsTaken self.old event.now told self.new × (text.new ≡ text.old ++ told)) }
        ensures err { IfErr result (λ fault. (fault ≡ PlantFault.NoMemory)
            ⊎ (PlantRefuses self.old event.now fault × (self.new ≡ self.old)
            × (text.new ≡ text.old))) }
    {
        // speed: D-plant-served
        let node = self.network.host_of(event);
        self.network.apply(event)?;
        let Some(node) = node else {
            return Ok(());
        };
        take_up(&mut self.network, node, text)
    }
}
