//! What a table takes up of a node that was heard.

ghost use Rattle.std.specs.Prelude.{◌≡◌, ◌≤◌, ◌⊎◌, None, IsOk, OnOk, OnErr, IfOk, IfSome, IfNone, is_some, true, false, length};
ghost use Rattle.std.specs.Map.{lookup};
ghost use Rattle.sr_frame.specs.Addresses.{mac_eq};
ghost use Rattle.sr_slots.specs.Places.{KeepsHeld};
ghost use Rattle.sr_node_table.specs.Limits.{most_nodes};
ghost use Rattle.sr_node_table.specs.Nodes.{hearing_of, entry_after, learnt_again, downs_of, raised, is_held, answer_to, after_hearing, announcement};
ghost use Rattle.sr_node_table.specs.Observing.{ObservesNode};

use crate::node::{Announced, Node, Told, begun, observe};
use crate::table::{MAX_NODES, NodeTable};
use crate::watching::raise_downs;
use sr_aged_slots::Aged;
use sr_frame::{LearnOutcome, Mac, NoMemory, Port};
use sr_sequence::Seq;
use sr_slots::Hint;
use sr_supervision::Supervision;

impl NodeTable {
    /// Hears a numbered frame of a node at a ring port, A or B. Full: 1024 other nodes are live, and nothing is kept.
    /// NoMemory: an allocation for a new node failed. Either way nothing changes.
    pub fn heard(
        &mut self,
        mac: Mac,
        port: Port,
        seq: Seq,
        now: u64,
    ) -> Result<LearnOutcome, NoMemory>
        requires ring { (port ≡ Port.A) ⊎ (port ≡ Port.B) }
        ensures { ObservesNode self.old (hearing_of mac port (Told.Numbered seq) now) result
            self.new }
    {
        self.heard_at(None, mac, port, seq, now)
    }

    /// What `heard` does, where the entry of the node is looked for first where a hint says. It hears a numbered frame of a node at a
    /// ring port, A or B. Full and NoMemory: as `heard`.
    // speed: D-node-one-look
    #[inline(always)]
    pub fn heard_at(
        &mut self,
        hint: Option<Hint>,
        mac: Mac,
        port: Port,
        seq: Seq,
        now: u64,
    ) -> Result<LearnOutcome, NoMemory>
        requires ring { (port ≡ Port.A) ⊎ (port ≡ Port.B) }
        ensures { ObservesNode self.old (hearing_of mac port (Told.Numbered seq) now) result
            self.new }
    {
        self.observe(hint, mac, port, Told::Numbered(seq), now)
    }

    /// Takes up what a supervision frame that came in at a ring port, A or B, says of a node.
    /// Full and NoMemory: as `heard`.
    pub fn announce(
        &mut self,
        supervision: &Supervision,
        port: Port,
        now: u64,
    ) -> Result<LearnOutcome, NoMemory>
        requires ring { (port ≡ Port.A) ⊎ (port ≡ Port.B) }
        ensures { ObservesNode self.old (announcement supervision.now port now) result self.new }
    {
        self.announce_at(None, supervision, port, now)
    }

    /// What `announce` does, where the entry of the node is looked for first where a hint says. It takes up what a supervision frame
    /// that came in at a ring port, A or B, says of a node. Full and NoMemory: as `heard`.
    pub fn announce_at(
        &mut self,
        hint: Option<Hint>,
        supervision: &Supervision,
        port: Port,
        now: u64,
    ) -> Result<LearnOutcome, NoMemory>
        requires ring { (port ≡ Port.A) ⊎ (port ≡ Port.B) }
        ensures { ObservesNode self.old (announcement supervision.now port now) result self.new }
    {
        let announced = Announced {
            life: supervision.life,
            redbox: supervision.redbox,
        };
        self.observe(hint, supervision.mac, port, Told::Announces(announced), now)
    }

    // A hearing of a node at a ring port.
    // speed: D-node-inlined
    #[inline(always)]
    fn observe(
        &mut self,
        hint: Option<Hint>,
        mac: Mac,
        port: Port,
        told: Told,
        now: u64,
    ) -> Result<LearnOutcome, NoMemory>
        ensures { ObservesNode self.old (hearing_of mac port told now) result self.new }
    {
        match self.observe_again(hint, mac, port, told, now) {
            Some(answer) => Ok(answer),
            None => self.begin(mac, port, told, now),
        }
    }

    // A hearing of a node that has an entry, forgotten or not.
    fn observe_again(
        &mut self,
        hint: Option<Hint>,
        mac: Mac,
        port: Port,
        told: Told,
        now: u64,
    ) -> Option<LearnOutcome>
        ensures few { length self.old.table.entries ≤ most_nodes }
        ensures found { is_some result ≡ is_some (lookup (mac_eq mac) self.old.table.entries) }
        ensures answer { IfSome result (λ learnt.
            learnt ≡ answer_to self.old.table (hearing_of mac port told now)) }
        ensures after { IfSome result (λ learnt.
            self.new.table ≡ after_hearing self.old.table (hearing_of mac port told now)) }
        ensures others { IfSome result (λ learnt. KeepsHeld self.old.held self.new.held mac) }
        ensures used { IfSome result (λ learnt. is_held self.new mac ≡ false) }
        ensures none { IfNone result (self.new ≡ self.old) }
    {
        let answer = self.nodes.update_at(
            hint,
            mac,
            |entry: &mut Aged<Node>| -> LearnOutcome
                ensures after { entry.new ≡ entry_after entry.old port told now }
                ensures answer { result ≡ learnt_again now entry.old }
            { observe(entry, port, told, now) },
        )?;
        Some(answer)
    }

    // The first hearing of a node that has no entry.
    fn begin(
        &mut self,
        mac: Mac,
        port: Port,
        told: Told,
        now: u64,
    ) -> Result<LearnOutcome, NoMemory>
        requires absent { lookup (mac_eq mac) self.old.table.entries ≡ None }
        ensures answer { IfOk result (λ learnt.
            learnt ≡ answer_to self.old.table (hearing_of mac port told now)) }
        ensures after { OnOk result (self.new.table
            ≡ after_hearing self.old.table (hearing_of mac port told now)) }
        ensures full { answer_to self.old.table (hearing_of mac port told now) ≡ LearnOutcome.Full
            → result ≡ Ok LearnOutcome.Full }
        ensures nothing { result ≡ Ok LearnOutcome.Full → self.new ≡ self.old }
        ensures reserved { is_held self.old mac ≡ true → IsOk result }
        ensures held { OnOk result (KeepsHeld self.old.held self.new.held mac) }
        ensures used { IfOk result (λ learnt.
            ¬ (learnt ≡ LearnOutcome.Full) → is_held self.new mac ≡ false) }
        ensures err { OnErr result (self.new ≡ self.old) }
    {
        if self.nodes.is_full_now(now) {
            return Ok(LearnOutcome::Full);
        }
        self.nodes.hold(mac)?;
        self.raise_downs(now);
        self.nodes.append(mac, begun(port, told, now), now)?;
        Ok(LearnOutcome::New)
    }

    // Raises the alarms of the nodes that a full table is about to let go.
    fn raise_downs(&mut self, now: u64)
        ensures table { self.new.table ≡ record self.old.table {
          alarms = raised
              self.old.table.alarms (downs_of now self.old.table.entries);
        } }
        ensures held { self.new.held ≡ self.old.held }
    {
        let _room = self.alarms.capacity();
        if self.nodes.len() >= MAX_NODES {
            raise_downs(&self.nodes, &mut self.alarms, now);
        }
    }
}
