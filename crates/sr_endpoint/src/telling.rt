//! What a node tells of others.

ghost use Rattle.std.specs.Prelude.{◌≡◌, ◌++◌, IfOk, OnOk, OnErr, length, slice_get};
ghost use Rattle.sr_node_table.specs.Stating.{listed_at, status_at};
ghost use Rattle.sr_endpoint.specs.Endpoints.{state_by};
ghost use Rattle.sr_endpoint.specs.AlarmLogs.{after_look};
ghost use Rattle.sr_endpoint.specs.Telling.{all_statuses, if_told, status_listed};

use crate::{AlarmLog, Endpoint};
use sr_frame::{Mac, NoMemory};
use sr_node_table::{Alarm, Status};

// Adds what is told of a node, if anything is.
fn push(told: &mut Vec<Status>, status: Option<Status>) -> Result<(), NoMemory>
    ensures { OnOk result (told.new.items ≡ told.old.items ++ if_told status) }
{
    if let Some(status) = status {
        told.extend_from_slice(&[status])?;
    }
    Ok(())
}

impl Endpoint {
    /// How many other nodes were heard less than 60000 ms ago. NoMemory: an allocation failed.
    pub fn node_count(&self) -> Result<usize, NoMemory>
        ensures { IfOk result (λ n. n ≡ length (listed_at (state_by self.now).core.nodes
            (state_by self.now).core.time)) }
    {
        let macs = self.node.nodes()?;
        Ok(macs.len())
    }

    /// What is told of all nodes that were heard less than 60000 ms ago, in the order of first hearing. NoMemory: an allocation failed.
    pub fn statuses(&self) -> Result<Vec<Status>, NoMemory>
        ensures { IfOk result (λ told. told.items ≡ all_statuses (state_by self.now).core) }
    {
        let macs = self.node.nodes()?;
        let mut told = Vec::with_capacity(self.alloc, macs.len())?;
        for mac in &macs {
            push(&mut told, self.node.status(*mac))?;
        }
        Ok(told)
    }

    /// What is told of the node of this index, in the order of first hearing; None where there is none. NoMemory: an allocation failed.
    pub fn status_at(&self, index: usize) -> Result<Option<Status>, NoMemory>
        ensures { IfOk result (λ told. told ≡ status_listed (state_by self.now).core index) }
    {
        let macs = self.node.nodes()?;
        match macs.get(index) {
            Some(mac) => Ok(self.node.status(*mac)),
            None => Ok(None),
        }
    }

    /// What is told of the node with this address; None where it was not heard for 60000 ms.
    pub fn status_of(&self, mac: Mac) -> Option<Status>
        ensures { result ≡ status_at (state_by self.now).core.nodes mac
            (state_by self.now).core.time }
    {
        self.node.status(mac)
    }

    /// The alarms that are kept, the oldest first. NoMemory: an allocation failed.
    pub fn alarms(&self) -> Result<Vec<Alarm>, NoMemory>
        ensures { IfOk result (λ alarms. alarms.items ≡ (state_by self.now).core.nodes.alarms) }
    {
        self.node.alarms()
    }

    /// Looks at the alarms, so that those that were raised since the last look are counted. NoMemory: an allocation failed, and nothing
    /// changes.
    pub fn look_at_alarms(&mut self) -> Result<(), NoMemory>
        ensures looked { OnOk result (self.new.log
            ≡ after_look self.old.log (state_by self.old).core.nodes.alarms) }
        ensures same { state_by self.new ≡ state_by self.old }
        ensures uncounted { self.new.counters ≡ self.old.counters }
        ensures err { OnErr result (self.new.log ≡ self.old.log) }
    {
        let alarms = self.node.alarms()?;
        self.log.look(alarms);
        Ok(())
    }

    /// What is known of the alarms since the last look.
    pub fn alarm_log(&self) -> &AlarmLog
        ensures { result.now ≡ self.now.log }
    {
        &self.log
    }

    /// How many alarms are kept. NoMemory: an allocation failed.
    pub fn alarm_count(&self) -> Result<usize, NoMemory>
        ensures { IfOk result (λ n. n ≡ length (state_by self.now).core.nodes.alarms) }
    {
        let alarms = self.node.alarms()?;
        Ok(alarms.len())
    }

    /// The alarm of this index, the oldest first; None where there is none. NoMemory: an allocation failed.
    pub fn alarm_at(&self, index: usize) -> Result<Option<Alarm>, NoMemory>
        ensures { IfOk result (λ told. told
            ≡ slice_get (state_by self.now).core.nodes.alarms index) }
    {
        let alarms = self.node.alarms()?;
        match alarms.get(index) {
            Some(alarm) => Ok(Some(*alarm)),
            None => Ok(None),
        }
    }
}
