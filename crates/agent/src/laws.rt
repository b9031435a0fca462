//! What holds of the definitions of an ask and of a reply. The functions have nothing to do.

ghost use Rattle.std.specs.Prelude.{◌≡◌, ◌≢◌, ◌≤◌, ◌<◌, ℕ, List, length, Some, None, IfSome};
ghost use Rattle.sig_tables.specs.declared.tables.Tables.{Tables};
ghost use Rattle.oid_map.specs.Objects.{readable, next_of};
ghost use Rattle.oid_map.specs.Order.{IsAmong};
ghost use Rattle.oid_map.specs.Names.{IsName, IsReadable};
ghost use Rattle.oid_map.specs.declared.names.Name.{Name};
ghost use Rattle.snmp_msg.specs.declared.message.Message.{Message};
ghost use Rattle.snmp_msg.specs.Shortest.{shortest};
ghost use Rattle.agent.specs.Seen.{Seen};
ghost use Rattle.agent.specs.Values.{value_of, value_named};
ghost use Rattle.agent.specs.Replies.{repeated};
ghost use Rattle.agent.specs.declared.ask.Ask.{Ask};
ghost use Rattle.agent.specs.Asks.{ask_of, Asks, AsksNothing};

/// A frame asks one thing at most, the one that reading it gives.
pub fn frames_ask_one_thing()
    ensures read { (frame community : List ℕ) (t : Tables) (ask : Ask) → Asks frame community t ask → ask_of frame community t ≡ Some ask }
    ensures found { (frame community : List ℕ) (t : Tables) → IfSome (ask_of frame community t) (Asks frame community t) }
{}

/// A frame asks nothing exactly if it isn't a message, is one of another community, or is a Response.
pub fn other_frames_ask_nothing()
    ensures nothing { (frame community : List ℕ) (t : Tables) → AsksNothing frame community → ask_of frame community t ≡ None }
    ensures others { (frame community : List ℕ) (t : Tables) → ask_of frame community t ≡ None → AsksNothing frame community }
{}

/// Each instance of the list of all that can be read has a value, so a GetNext has a fault only where nothing comes next; and
/// no instance that can only be written has a value.
pub fn instances_have_values()
    ensures each { (s : Seen) (arcs : List ℕ) → IsAmong arcs readable → value_named s arcs ≢ None }
    ensures next { (s : Seen) (arcs : List ℕ) → IfSome (next_of arcs) (λ following. value_named s following ≢ None) }
    ensures others { (s : Seen) (name : Name) → IsName name → (IsReadable name → ⊥) → value_of s name ≡ None }
{}

/// A Response that repeats the bindings of a request is no longer than the request in its shortest text.
pub fn repeated_bindings_fit()
    ensures { (m : Message) (status index : ℕ) → status < 128 → index < 128 → length (shortest (repeated m status index)) ≤ length (shortest m) }
{}
