//! What holds of the messages' texts whatever is read or written.

ghost use Rattle.std.specs.Prelude.{ℕ, ◌≤◌, List, length};
ghost use Rattle.ber_code.specs.Fields.{StandsAlone};
ghost use Rattle.snmp_msg.specs.declared.message.Message.{Message};
ghost use Rattle.snmp_msg.specs.Messages.{IsFramed, IsMessage};
ghost use Rattle.snmp_msg.specs.Shortest.{AreOctets, shortest};

/// The text of a message begins no other text: not of another message, nor of the same.
pub fn messages_stand_alone()
    ensures { StandsAlone IsMessage }
{}

/// No text of a message has fewer octets than its shortest text, in a frame of any size.
pub fn shortest_text_is_least()
    ensures { (text : List ℕ) (m : Message) → AreOctets text → IsFramed text m → length (shortest m) ≤ length text }
{}
