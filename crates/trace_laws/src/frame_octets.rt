//! Only octets go over the link: whatever octets reach a cabinet, it answers with the octets of a frame, and so does
//! the master with what it sends, and the link with what it makes of both. It has no code: the functions represent the
//! laws of their contracts.
ghost use Rattle.std.specs.Prelude.{◌≤◌, List, ℕ, length, IfSome};
ghost use Rattle.std.specs.List.{AllByRecursion};
ghost use Rattle.sig_tables.specs.declared.tables.Tables.{Tables};
ghost use Rattle.plan_facts.specs.Disturbances.{Drift};
ghost use Rattle.snmp_msg.specs.declared.message.Message.{Message};
ghost use Rattle.snmp_msg.specs.Shortest.{AreOctets, shortest};
ghost use Rattle.snmp_msg.specs.Messages.{IsMessage};
ghost use Rattle.scenario_data.specs.Content.{CabinetContent, ScenarioContent};
ghost use Rattle.scenario_data.specs.Opening.{opening_tables};
ghost use Rattle.sig_types.specs.Replies.{Reply};
ghost use Rattle.cabinet_history.specs.CabinetHistory.{CabinetHistory};
ghost use Rattle.cabinet_history.specs.CabinetAnswers.{reply_to};
ghost use Rattle.cabinet_laws.specs.Openings.{IsOpening};
ghost use Rattle.master_load.specs.Downloads.{AreLoads};
ghost use Rattle.master_rounds.specs.Rounds.{arrivals, streams_of};
ghost use Rattle.runnable.specs.Octets.{OnlyOctets, PutOctets};
ghost use Rattle.trace_laws.specs.Messages.{IsFrame, IsOctetMessage};
ghost use Rattle.trace_laws.specs.Tables.{EachHolds};
ghost use Rattle.trace_laws.specs.Items.{AreOctetItems};
ghost use Rattle.trace_laws.specs.Rounds.{ArrivedIs, RepliesAre};

/// A message that is read from octets is of octets, and one of octets is written as the octets of a frame, where it fits into one
/// (RFC 1157; 1,472 octets is what a datagram carries over Ethernet).
pub fn messages_are_of_octets()
    ensures read { (text : List ℕ) (m : Message) → AreOctets text → IsMessage text m → IsOctetMessage m }
    ensures written { (m : Message) → IsOctetMessage m → length (shortest m) ≤ 1472 → IsFrame (shortest m) }
{}

/// Whatever octets have reached a cabinet, and whatever follow: the reply, if there is one, is 1 to 1,472 octets. The
/// tables that a cabinet opens with may be any whose lists are of octets, as those of a scenario are.
pub fn replies_are_frames()
    ensures replies { (cabinet_history : CabinetHistory) (t : Tables) (d : Drift) (octets : List ℕ) → IsOpening t d cabinet_history.opening → EachHolds t
        → AreOctetItems cabinet_history.items → AreOctets octets → IfSome (reply_to cabinet_history octets) IsFrame }
    ensures opened { (c : CabinetContent) → PutOctets c.cells → EachHolds (opening_tables c) }
{}

/// Whatever a cabinet has answered, only octets reach it: what the master sends is, and what the link makes of it, with the scenario's
/// own frames and requests. And where it has answered octets, only octets have arrived from it at the master.
pub fn only_octets_go_over_the_line()
    ensures down { (s : ScenarioContent) (cab : ℕ) (c : CabinetContent) (answered : List (List Reply)) → OnlyOctets s → AreLoads s.loads
        → AllByRecursion AreOctetItems (streams_of s cab c answered) }
    ensures up { (s : ScenarioContent) (cab : ℕ) (answered : List (List Reply)) → OnlyOctets s → RepliesAre answered
        → AllByRecursion ArrivedIs (arrivals s cab answered) }
{}
