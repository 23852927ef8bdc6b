//! The protocol as a pure machine: its definitions, which stand in `specs/`, and the fates of packets and events.
//!
//! The functions here have empty bodies. Their contracts tie the definitions to each other.
#![tactic(auto)]

ghost use Rattle.std.specs.Prelude.{◌≡◌, ◌↔◌, ◌⊎◌, ℕ, suc, Bool, true, false, if◌then◌else◌, List, [], ◌∷◌, ◌++◌, length};
ghost use Rattle.ch_protocol.specs.Packets.{Name};
ghost use Rattle.ch_protocol.specs.Forwarder.{keeps_after};
ghost use Rattle.ch_protocol.specs.Machine.{Config, State, Event, How, effect, keeps_all, row_at};
ghost use Rattle.ch_protocol.specs.Machine.Event.{Send, Resend, Up, Down, Back};
ghost use Rattle.ch_protocol.specs.Fates.{event_fate};
ghost use Rattle.ch_protocol.specs.Received.{is_row_of, names_arrived, rows_arrived};
ghost use Rattle.ch_protocol.specs.declared.fate.NoteFate.TheVariants.{Nothing, Sent, Pruned, Forwarded, Passed, New, Taken};

mod fate;

pub use fate::{Fate, NoteFate};

/// The switch keeps each row from the first restart on, where the kind has two passes: each restart tells it so.
pub fn keeping()
    ensures start { (c : Config) → keeps_all c 0 ≡ false }
    ensures restart { (c : Config) (epoch : ℕ) → keeps_all c (suc epoch) ≡ keeps_after (keeps_all c epoch) c.two_passes }
{}

/// Fates tell what events do.
pub fn fates_tell()
    // an event that comes to nothing changes nothing
    ensures nothing { (c : Config) (s : State) (e : Event) → event_fate c s e ≡ Nothing → effect c s e ≡ s }

    // a send or a resend is Sent exactly where it puts a packet on the link up
    ensures sent { (c : Config) (s : State) (w : ℕ) → (event_fate c s (Send w) ≡ Sent) ↔ (length (effect c s (Send w)).up ≡ suc (length s.up)) }
    ensures resent { (c : Config) (s : State) (w place : ℕ) → (event_fate c s (Resend w place) ≡ Sent) ↔ (length (effect c s (Resend w place)).up ≡ suc (length s.up)) }

    // a packet on the link down is New exactly where the master has one name more
    ensures new { (c : Config) (s : State) (place : ℕ) (how : How) → (event_fate c s (Down place how) ≡ New) ↔ (length (effect c s (Down place how)).received ≡ suc (length s.received)) }

    // a packet on the link up is Forwarded or Passed exactly where the switch puts it on the link down
    ensures sent_on { (c : Config) (s : State) (place : ℕ) (how : How) → ((event_fate c s (Up place how) ≡ Forwarded) ⊎ (event_fate c s (Up place how) ≡ Passed)) ↔ (length (effect c s (Up place how)).down ≡ suc (length s.down)) }

    // and it is Pruned exactly where the switch puts an acknowledgement on the link back
    ensures pruned { (c : Config) (s : State) (place : ℕ) (how : How) → (event_fate c s (Up place how) ≡ Pruned) ↔ (length (effect c s (Up place how)).back ≡ suc (length s.back)) }

    // where an acknowledgement isn't Taken the workers learn nothing
    ensures untaken { (c : Config) (s : State) (place : ℕ) (how : How) → (event_fate c s (Back place how) ≡ Taken → ⊥) → (effect c s (Back place how)).acked ≡ s.acked }
{}

/// A received name stands behind those that came before it.
pub fn arrivals()
    ensures none { (c : Config) (pass : ℕ) → names_arrived c pass [] ≡ [] }
    ensures more { (c : Config) (pass : ℕ) (x : Name) (before : List Name) → names_arrived c pass (x ∷ before) ≡ (if is_row_of c pass x then names_arrived c pass before ++ x ∷ [] else names_arrived c pass before) }
    ensures rows { (c : Config) (pass : ℕ) (x : Name) (before : List Name) → rows_arrived c pass (x ∷ before) ≡ (if is_row_of c pass x then rows_arrived c pass before ++ row_at c x ∷ [] else rows_arrived c pass before) }
{}
